//! Parts of a line. Each `push_` function adds a text to the end of another.
ghost use Rattle.std.specs.Prelude.{◌≡◌, ◌++◌, ◌-◌, [], OnOk, filter, if◌then◌else◌, length};
ghost use Rattle.std.specs.List.{flat_map};
ghost use Rattle.net_base.specs.Locations.{in_order};
ghost use Rattle.location_names.specs.Neighbours.{is_held};
ghost use Rattle.outcome_report.specs.Lines.{next_name};
ghost use Rattle.multipath_report.specs.Texts.{hops_text, next_text, rank_text};

use input_output::NoMemory;
use location_names::is_near;
use net_base::{Loc, LocSet, Net};
use outcome_report::push_next;
use text_parts::{push_bytes, push_number};

// How many hops a path has, one fewer than places.
fn hops(path: &[Loc]) -> usize
    ensures { result ≡ length path.now - 1 }
{
    if path.is_empty() { 0 } else { path.len() - 1 }
}

/// Adds how many hops a path has.
pub(crate) fn push_hops(text: &mut Vec<u8>, path: &[Loc]) -> Result<(), NoMemory>
    ensures { OnOk result (text.new.items ≡ text.old.items ++ hops_text path.now) }
{
    push_bytes(text, b" hops ")?;
    push_number(text, hops(path) as u64)
}

/// Adds a rank, or that none is claimed.
pub(crate) fn push_rank(text: &mut Vec<u8>, rank: Option<u32>) -> Result<(), NoMemory>
    ensures { OnOk result (text.new.items ≡ text.old.items ++ rank_text rank) }
{
    match rank {
        None => push_bytes(text, b" transit"),
        Some(rank) => {
            push_bytes(text, b" rank ")?;
            push_number(text, u64::from(rank))
        }
    }
}

// Adds the name of a location, where it is in the set of another.
fn push_member(
    text: &mut Vec<u8>,
    net: &Net,
    sets: &[LocSet],
    at: Loc,
    next: Loc,
) -> Result<(), NoMemory>
    ensures { OnOk result (text.new.items ≡ text.old.items ++ (if is_held sets.now at next then next_name net.now next else [])) }
{
    if is_near(sets, at, next) {
        push_next(text, net, next)
    } else {
        Ok(())
    }
}

// Adds the names of the locations in the set of a location, in order.
fn push_members(text: &mut Vec<u8>, net: &Net, sets: &[LocSet], at: Loc) -> Result<(), NoMemory>
    ensures { OnOk result (text.new.items ≡ text.old.items ++ flat_map (next_name net.now) (filter (is_held sets.now at) (in_order net.now))) }
{
    for place in 0..net.routers().len() + net.peers().len() {
        push_member(text, net, sets, at, Loc::new(place as u16))?;
    }
    Ok(())
}

/// Adds the multipath set of a router.
pub(crate) fn push_set(
    text: &mut Vec<u8>,
    net: &Net,
    sets: &[LocSet],
    at: Loc,
) -> Result<(), NoMemory>
    ensures { OnOk result (text.new.items ≡ text.old.items ++ next_text net.now (is_held sets.now at)) }
{
    push_bytes(text, b" next")?;
    push_members(text, net, sets, at)
}
