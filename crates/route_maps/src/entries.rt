//! What the entries of route maps make of a route.
ghost use Rattle.std.specs.Prelude.{◌≡◌, ◌&&◌, ◌||◌, ◌==◌};
ghost use Rattle.std.specs.List.{find};
ghost use Rattle.net_base.specs.Network.{is_peer};
ghost use Rattle.config_base.specs.Lines.{same_tag};
ghost use Rattle.route_maps.specs.Maps.{permits as permits_by, list_permits as permitted_by, map_in as imported, map_out as exported};

use crate::maps::{ListLine, Maps};
use config_base::{Export, Import, Route, export_by, import_by, session_block};
use net_base::{Loc, Net, Prefix, Tag};

// Whether the first line whose pattern contains the prefix permits it. Without one it is refused.
fn permits(lines: &[ListLine], prefix: Prefix) -> bool
    ensures { result ≡ permits_by lines.now prefix }
{
    for line in lines {
        if line.pattern.contains(prefix) {
            return line.permit;
        }
    }
    false
}

/// Whether the list with this number, counted from 1, permits the prefix: its first line whose pattern contains the
/// prefix is a `permit`. A list that the maps don't have permits nothing.
pub fn list_permits(maps: &Maps, list: u32, prefix: Prefix) -> bool
    ensures { result ≡ permitted_by maps.now list prefix }
{
    if list == 0 {
        return false;
    }
    match maps.lists().get(list as usize - 1) {
        None => false,
        Some(lines) => permits(lines.as_slice(), prefix),
    }
}

// Whether an `in` entry decides on a neighbour's route. The communities of a peer are ignored.
fn decides(net: &Net, maps: &Maps, prefix: Prefix, from: Loc, tag: Tag, entry: &Import) -> bool
    ensures { result ≡ (permitted_by maps.now entry.now.class prefix && (is_peer net.now from || same_tag entry.now.tag tag)) }
{
    list_permits(maps, entry.class, prefix) && (net.is_peer(from) || entry.tag == tag)
}

// The first `in` entry that decides on a neighbour's route.
fn in_entry(
    net: &Net,
    maps: &Maps,
    prefix: Prefix,
    from: Loc,
    tag: Tag,
    entries: &[Import],
) -> Option<Import>
    ensures { result ≡ find (λ e. permitted_by maps.now e.class prefix && (is_peer net.now from || same_tag e.tag tag)) entries.now }
{
    for entry in entries {
        if decides(net, maps, prefix, from, tag, entry) {
            return Some(*entry);
        }
    }
    None
}

// Whether an `out` entry sends a route.
fn sends(maps: &Maps, prefix: Prefix, tag: Tag, entry: &Export) -> bool
    ensures { result ≡ (permitted_by maps.now entry.now.class prefix && same_tag entry.now.tag tag) }
{
    list_permits(maps, entry.class, prefix) && entry.tag == tag
}

// The first `out` entry that sends a route.
fn out_entry(maps: &Maps, prefix: Prefix, tag: Tag, entries: &[Export]) -> Option<Export>
    ensures { result ≡ find (λ e. permitted_by maps.now e.class prefix && same_tag e.tag tag) entries.now }
{
    for entry in entries {
        if sends(maps, prefix, tag, entry) {
            return Some(*entry);
        }
    }
    None
}

/// The tag and the preference (LOCAL_PREF, RFC 4271, 5.1.5) that a router's maps give what a neighbour sends, whose
/// path begins with the neighbour: those of the first `in` entry whose list permits the prefix and, from a router,
/// whose tag is the route's. None where no entry does, and where the AS_PATH holds the importer's number (RFC 4271,
/// 9.1.2) or, from a peer, that of any router. It takes no memory.
pub fn map_in(
    net: &Net,
    maps: &Maps,
    prefix: Prefix,
    at: Loc,
    from: Loc,
    path: &[Loc],
    tag: Tag,
) -> Option<(Tag, u32)>
    ensures { result ≡ imported net.now maps.now prefix at from path.now tag }
{
    let block = session_block(net, maps.routers(), at, from)?;
    let entry = in_entry(net, maps, prefix, from, tag, block.imports.as_slice())?;
    import_by(net, block, entry.class, at, from, path, tag)
}

/// The tag that goes with a router's route to a neighbour, where some `out` entry has a list that permits the prefix
/// and the route's tag: the tag itself to a router, none to a peer. None where no entry does. It takes no memory.
pub fn map_out(
    net: &Net,
    maps: &Maps,
    prefix: Prefix,
    from: Loc,
    to: Loc,
    route: &Route,
) -> Option<Tag>
    ensures { result ≡ exported net.now maps.now prefix from to route.now.tag }
{
    let block = session_block(net, maps.routers(), from, to)?;
    let entry = out_entry(maps, prefix, route.tag, block.exports.as_slice())?;
    export_by(net, block, entry.class, to, route.tag)
}
