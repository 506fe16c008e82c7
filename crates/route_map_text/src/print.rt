//! The text of maps.
ghost use Rattle.std.specs.Prelude.{◌≡◌, IfOk};
ghost use Rattle.route_map_text.specs.MapsLines.{maps_text};
ghost use Rattle.route_map_text.specs.MapsSpelled.{Spells};

use crate::blocks::{push_lists, push_routers};
use config_base::{RouterConfig, Session};
use input_output::NoMemory;
use net_base::List;
use route_maps::{ListLine, Maps};
use std::alloc::Global;
use text_parts::push_bytes;

// As many bytes as most lines of lists have.
const LIST_BYTES: usize = 32;

// Somewhat more bytes than an entry has on the average: most that go in have 52 to 66, those that go out 30 to 40.
const ENTRY_BYTES: usize = 56;

// How many entries a router's neighbours have.
fn entries_of(sessions: &[Session]) -> usize {
    let mut entries = 0usize;
    for session in sessions {
        entries = entries.saturating_add(session.imports.as_slice().len());
        entries = entries.saturating_add(session.exports.as_slice().len());
    }
    entries
}

// Room for the entries of routers.
fn room_for_routers(routers: &[RouterConfig]) -> usize {
    let mut entries = 0usize;
    for router in routers {
        entries = entries.saturating_add(entries_of(router.sessions.as_slice()));
    }
    entries.saturating_mul(ENTRY_BYTES)
}

// Room for the lines of lists.
fn room_for_lists(lists: &[List<ListLine>]) -> usize {
    let mut lines = 0usize;
    for list in lists {
        lines = lines.saturating_add(list.as_slice().len());
    }
    lines.saturating_mul(LIST_BYTES)
}

// Room for the lists and the entries, which is asked for once. Where it falls short, the text grows.
fn room_for(maps: &Maps) -> usize {
    room_for_lists(maps.lists()).saturating_add(room_for_routers(maps.routers()))
}

/// The text of maps. It spells these maps, and no text spells two.
pub fn print_maps(alloc: Global, maps: &Maps) -> Result<Vec<u8>, NoMemory>
    ensures text { IfOk result (λ v. v.items ≡ maps_text maps.now) }
    ensures spells { IfOk result (λ v. Spells v.items maps.now) }
{
    let mut text = Vec::with_capacity(alloc, room_for(maps))?;
    push_bytes(&mut text, b"propane-maps 1\n")?;
    push_lists(&mut text, maps.lists())?;
    push_routers(&mut text, maps.routers())?;
    Ok(text)
}
