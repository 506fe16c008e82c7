//! Steps of two nodes side by side.
ghost use Rattle.std.specs.Prelude.{◌≡◌, ◌+◌, ◌<◌, ◌≤◌, ◌⊎◌, ℕ, None, OnOk, Option as Perhaps, Some, length, option_map, slice_get};
ghost use Rattle.pair_graph.specs.declared.pair.NodePair.{NodePair as PlainPair};
ghost use Rattle.pair_graph.specs.declared.way.Way.{Way as PlainWay};
ghost use Rattle.pair_graph.specs.Nexts.{AreNexts, AreNextsBelow};
ghost use Rattle.pair_graph.specs.Pairs.{joined as joined_of};
ghost use Rattle.pair_graph.specs.Ways.{AreInOrder, IsCut, both_taken, place_of, taken};

use crate::pair::{NodePair, joined};
use crate::way::Way;
use net_base::Loc;
use std::alloc::AllocError;

// The location of a way, if there is one at this index.
fn place_at(ways: &[Way], index: usize) -> Option<u16>
    ensures { result ≡ option_map place_of (slice_get ways.now index) }
{
    match ways.get(index) {
        Some(way) => Some(way.place),
        None => None,
    }
}

// The lesser of two locations, of which one or both may be missing.
fn lesser(one: Option<u16>, other: Option<u16>) -> Option<u16>
    ensures none { result ≡ None → (one ≡ None) × (other ≡ None) }
    ensures one { (p q : ℕ) → result ≡ Some p → one ≡ Some q → p ≤ q }
    ensures other { (p q : ℕ) → result ≡ Some p → other ≡ Some q → p ≤ q }
    ensures either { (p : ℕ) → result ≡ Some p → (one ≡ Some p) ⊎ (other ≡ Some p) }
{
    match (one, other) {
        (Some(one), Some(other)) => Some(one.min(other)),
        (Some(one), None) => Some(one),
        (None, other) => other,
    }
}

// Where the way at this index leads, if it leads to the location.
fn to_at(ways: &[Way], index: usize, place: u16) -> Option<u32>
    requires order { AreInOrder ways.now }
    requires cut { IsCut place_of ways.now place index }
    ensures { result ≡ taken ways.now place }
{
    match ways.get(index) {
        Some(way) => {
            if way.place == place {
                Some(way.to)
            } else {
                None
            }
        }
        None => None,
    }
}

// The index of the first way past a location, from that of the first which isn't before it.
fn past(ways: &[Way], index: usize, place: u16) -> usize
    requires order { AreInOrder ways.now }
    requires cut { IsCut place_of ways.now place index }
    ensures cut { IsCut place_of ways.now (place + 1) result }
    ensures kept { index ≤ result }
    ensures more { option_map place_of (slice_get ways.now index) ≡ Some place → index < result }
{
    let mut end = index;
    'past: while end < ways.len() {
        if place < ways[end].place {
            break;
        }
        end += 1;
    }
    end
}

// Puts the pair at a location behind those before it, if there is one.
fn add(
    pairs: &mut Vec<NodePair>,
    place: u16,
    first: Option<u32>,
    second: Option<u32>,
) -> Result<(), AllocError>
    ensures { (next : ℕ → Perhaps PlainPair) → AreNextsBelow next pairs.old.items place → next place ≡ joined_of place first second
        → OnOk result (AreNextsBelow next pairs.new.items (place + 1)) }
{
    if let Some(pair) = joined(Loc::new(place), first, second) {
        pairs.push(pair)?;
    }
    Ok(())
}

/// The pairs to which the ways of two nodes lead together, in order of location. They take the place of what was there.
pub(crate) fn merge(
    first: &[Way],
    second: &[Way],
    pairs: &mut Vec<NodePair>,
) -> Result<(), AllocError>
    requires first { AreInOrder first.now }
    requires second { AreInOrder second.now }
    ensures { OnOk result (AreNexts (both_taken first.now second.now) pairs.new.items) }
{
    pairs.clear();
    let mut i = 0;
    let mut j = 0;
    'merge: while let Some(place) = lesser(place_at(first, i), place_at(second, j)) {
        add(
            pairs,
            place,
            to_at(first, i, place),
            to_at(second, j, place),
        )?;
        i = past(first, i, place);
        j = past(second, j, place);
    }
    Ok(())
}
