//! The lines of a configuration, each with its class and its place.
ghost use Rattle.std.specs.Prelude.{◌≡◌, ◌<◌, ◌++◌, ◌^◌, map, length, OnOk, IfOk};
ghost use Rattle.class_lines.specs.ClassLines.{
  all_lines,
  export_line,
  import_line,
  own_line,
  routers_from,
  same_says as same_said,
  sessions_from,
};
ghost use Rattle.class_lines.specs.declared.class_line.Says.TheVariants.{Originates, Takes, Sends};

use config_base::{Config, Export, Import, Origination, RouterConfig, Session};
use net_base::{Prefix, Tag};
use std::alloc::{AllocError, Global};

/// What a line says, but for its class.
#[derive(Clone, Copy, Debug, PartialEq, Eq)]
pub enum Says {
    /// The router originates the prefix, with this tag.
    Originates(Prefix, Tag),
    /// A route with the first tag is taken, and given the second one and this preference.
    Takes(Tag, Tag, u32),
    /// A route with this tag is sent.
    Sends(Tag),
}

/// A line: its class, which router's block it stands in, from 0, and which of the router's neighbours it is about, from 1, or 0.
#[derive(Clone, Copy, Debug, PartialEq, Eq)]
pub struct ClassLine {
    /// The number of its class, from 1.
    pub class: u32,
    /// The place, from 0, of the router in whose block it stands.
    pub router: usize,
    /// The place, from 1, of the neighbour that it is about, or 0 for a line of the router alone.
    pub neighbour: usize,
    /// What it says.
    pub says: Says,
}

// Whether a line originates the prefix with this tag.
fn originates(says: &Says, prefix: Prefix, tag: Tag) -> bool
    ensures { result ≡ same_said (Originates prefix tag) says.now }
{
    match says {
        Says::Originates(other, t) => prefix == *other && tag == *t,
        _ => false,
    }
}

// Whether a line takes a route with the first tag, and gives it the second one and this preference.
fn takes(says: &Says, tag: Tag, set: Tag, pref: u32) -> bool
    ensures { result ≡ same_said (Takes tag set pref) says.now }
{
    match says {
        Says::Takes(t, s, n) => tag == *t && set == *s && pref == *n,
        _ => false,
    }
}

// Whether a line sends a route with this tag.
fn sends(says: &Says, tag: Tag) -> bool
    ensures { result ≡ same_said (Sends tag) says.now }
{
    match says {
        Says::Sends(t) => tag == *t,
        _ => false,
    }
}

/// Whether two lines say the same.
pub fn same_says(a: &Says, b: &Says) -> bool
    ensures { result ≡ same_said a.now b.now }
{
    match a {
        Says::Originates(prefix, tag) => originates(b, *prefix, *tag),
        Says::Takes(tag, set, pref) => takes(b, *tag, *set, *pref),
        Says::Sends(tag) => sends(b, *tag),
    }
}

// Puts a router's own lines behind the others.
fn push_own(
    lines: &mut Vec<ClassLine>,
    router: usize,
    own: &[Origination],
) -> Result<(), AllocError>
    ensures { OnOk result (lines.new.items ≡ lines.old.items ++ map (own_line router) own.now) }
{
    for line in own {
        lines.push(ClassLine {
            class: line.class,
            router,
            neighbour: 0,
            says: Says::Originates(line.prefix, line.tag),
        })?;
    }
    Ok(())
}

// Puts the imports of a neighbour's block behind the others.
fn push_imports(
    lines: &mut Vec<ClassLine>,
    router: usize,
    neighbour: usize,
    imports: &[Import],
) -> Result<(), AllocError>
    ensures { OnOk result (lines.new.items ≡ lines.old.items ++ map (import_line router neighbour) imports.now) }
{
    for import in imports {
        lines.push(ClassLine {
            class: import.class,
            router,
            neighbour,
            says: Says::Takes(import.tag, import.set, import.pref),
        })?;
    }
    Ok(())
}

// Puts its exports behind the others.
fn push_exports(
    lines: &mut Vec<ClassLine>,
    router: usize,
    neighbour: usize,
    exports: &[Export],
) -> Result<(), AllocError>
    ensures { OnOk result (lines.new.items ≡ lines.old.items ++ map (export_line router neighbour) exports.now) }
{
    for export in exports {
        lines.push(ClassLine {
            class: export.class,
            router,
            neighbour,
            says: Says::Sends(export.tag),
        })?;
    }
    Ok(())
}

// Puts the lines of a router's neighbours behind the others.
fn push_sessions(
    lines: &mut Vec<ClassLine>,
    router: usize,
    sessions: &[Session],
) -> Result<(), AllocError>
    ensures { OnOk result (lines.new.items ≡ lines.old.items ++ sessions_from router 1 sessions.now) }
{
    for s in 0..sessions.len() {
        push_imports(lines, router, s + 1, sessions[s].imports.as_slice())?;
        push_exports(lines, router, s + 1, sessions[s].exports.as_slice())?;
    }
    Ok(())
}

// Puts the lines of the routers behind the others.
fn push_routers(lines: &mut Vec<ClassLine>, routers: &[RouterConfig]) -> Result<(), AllocError>
    ensures { OnOk result (lines.new.items ≡ lines.old.items ++ routers_from 0 routers.now) }
{
    for r in 0..routers.len() {
        push_own(lines, r, routers[r].own.as_slice())?;
        push_sessions(lines, r, routers[r].sessions.as_slice())?;
    }
    Ok(())
}

/// All lines of a configuration, in the order of its text.
pub fn lines_of_config(alloc: Global, config: &Config) -> Result<Vec<ClassLine>, AllocError>
    ensures { IfOk result (λ v. v.items ≡ all_lines config.now) }
{
    let mut lines = Vec::new(alloc);
    push_routers(&mut lines, config.routers())?;
    Ok(lines)
}
