//! The tags and the preferences that stand in a configuration.
ghost use Rattle.std.specs.Prelude.{◌≡◌, ◌++◌, map, max, IfOk, OnOk};
ghost use Rattle.std.specs.List.{flat_map, fold};
ghost use Rattle.free_tags.specs.Taken.{
  tags_of_import,
  tag_of_export,
  tag_of_own,
  tags_of_session,
  tags_of_router,
  tags_in,
  pref_of_import,
  prefs_of_session,
  prefs_in,
  greatest,
};

use config_base::{Config, Export, Import, Origination, RouterConfig, Session};
use net_base::Tag;
use std::alloc::{AllocError, Global};

// Adds the tags that imports ask for and set.
fn add_imports(tags: &mut Vec<Tag>, imports: &[Import]) -> Result<(), AllocError>
    ensures { OnOk result (tags.new.items ≡ tags.old.items ++ flat_map tags_of_import imports.now) }
{
    for import in imports {
        tags.push(import.tag)?;
        tags.push(import.set)?;
    }
    Ok(())
}

// Adds the tags for which exports ask.
fn add_exports(tags: &mut Vec<Tag>, exports: &[Export]) -> Result<(), AllocError>
    ensures { OnOk result (tags.new.items ≡ tags.old.items ++ map tag_of_export exports.now) }
{
    for export in exports {
        tags.push(export.tag)?;
    }
    Ok(())
}

// Adds the tags of a router's own routes.
fn add_own(tags: &mut Vec<Tag>, own: &[Origination]) -> Result<(), AllocError>
    ensures { OnOk result (tags.new.items ≡ tags.old.items ++ map tag_of_own own.now) }
{
    for line in own {
        tags.push(line.tag)?;
    }
    Ok(())
}

// Adds the tags of the blocks of neighbours.
fn add_sessions(tags: &mut Vec<Tag>, sessions: &[Session]) -> Result<(), AllocError>
    ensures { OnOk result (tags.new.items ≡ tags.old.items ++ flat_map tags_of_session sessions.now) }
{
    for session in sessions {
        add_imports(tags, session.imports.as_slice())?;
        add_exports(tags, session.exports.as_slice())?;
    }
    Ok(())
}

// Adds the tags of the blocks of routers.
fn add_routers(tags: &mut Vec<Tag>, routers: &[RouterConfig]) -> Result<(), AllocError>
    ensures { OnOk result (tags.new.items ≡ tags.old.items ++ flat_map tags_of_router routers.now) }
{
    for router in routers {
        add_own(tags, router.own.as_slice())?;
        add_sessions(tags, router.sessions.as_slice())?;
    }
    Ok(())
}

/// The tags that stand in the lines of a configuration, in the order of its text, each as often as it stands there.
pub fn tags_of_config(alloc: Global, config: &Config) -> Result<Vec<Tag>, AllocError>
    ensures { IfOk result (λ tags. tags.items ≡ tags_in config.now) }
{
    let mut tags = Vec::new(alloc);
    add_routers(&mut tags, config.routers())?;
    Ok(tags)
}

// The greatest of a number and the preferences of imports.
fn top_of_imports(top: u32, imports: &[Import]) -> u32
    ensures { result ≡ fold max top (map pref_of_import imports.now) }
{
    let mut most = top;
    for import in imports {
        most = most.max(import.pref);
    }
    most
}

// The greatest of a number and the preferences in blocks of neighbours.
fn top_of_sessions(top: u32, sessions: &[Session]) -> u32
    ensures { result ≡ fold max top (flat_map prefs_of_session sessions.now) }
{
    let mut most = top;
    for session in sessions {
        most = top_of_imports(most, session.imports.as_slice());
    }
    most
}

/// The greatest preference that stands in a configuration, or 0 where none does.
pub fn greatest_pref(config: &Config) -> u32
    ensures { result ≡ greatest (prefs_in config.now) }
{
    let mut most = 0;
    for router in config.routers() {
        most = top_of_sessions(most, router.sessions.as_slice());
    }
    most
}
