//! Where the steps of each node begin, among steps in order of the nodes that step.
ghost use Rattle.std.specs.Prelude.{◌≡◌, ◌+◌, ◌-◌, ◌<◌, ◌≤◌, IfOk, drop, filter, length, take};
ghost use Rattle.std.specs.List.Sorted.{IsNonDecreasingBy};
ghost use Rattle.pair_graph.specs.Ways.{AreRuns, IsCut, comes_from, from_of};

use crate::way::Way;
use std::alloc::{AllocError, Global};

// Where the steps of a node end, which begin at a place.
fn run_end(ways: &[Way], begin: usize, node: u32) -> usize
    requires order { IsNonDecreasingBy from_of ways.now }
    requires begin { IsCut from_of ways.now node begin }
    ensures { IsCut from_of ways.now (node + 1) result }
{
    let mut end = begin;
    'run: while end < ways.len() {
        if node < ways[end].from {
            break;
        }
        end += 1;
    }
    end
}

/// Where the steps of each of so many nodes begin, and where those of the last one end.
pub(crate) fn begins_of(alloc: Global, count: u32, ways: &[Way]) -> Result<Vec<usize>, AllocError>
    requires { IsNonDecreasingBy from_of ways.now }
    ensures runs { IfOk result (λ begins. AreRuns ways.now begins.items) }
    ensures count { IfOk result (λ begins. length begins.items ≡ count + 1) }
{
    let mut begins = Vec::with_capacity(alloc, count as usize + 1)?;
    let mut place = 0;
    begins.push(place)?;
    for node in 0..count {
        place = run_end(ways, place, node);
        begins.push(place)?;
    }
    Ok(begins)
}

// Where the steps of a node begin and end.
fn ends_of(ways: &[Way], begins: &[usize], node: u32) -> (usize, usize)
    requires runs { AreRuns ways.now begins.now }
    requires node { node + 1 < length begins.now }
    ensures order { result.0 ≤ result.1 }
    ensures bound { result.1 ≤ length ways.now }
    ensures run { take (result.1 - result.0) (drop result.0 ways.now) ≡ filter (comes_from node) ways.now }
{
    let place = node as usize;
    (begins[place], begins[place + 1])
}

/// The steps of a node.
pub(crate) fn run_of<'a>(ways: &'a [Way], begins: &[usize], node: u32) -> &'a [Way]
    requires runs { AreRuns ways.now begins.now }
    requires node { node + 1 < length begins.now }
    ensures { result.now ≡ filter (comes_from node) ways.now }
{
    let (begin, end) = ends_of(ways, begins, node);
    &ways[begin..end]
}
