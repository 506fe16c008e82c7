//! Where the ways of each node begin.
ghost use Rattle.std.specs.Prelude.{◌≡◌, ◌+◌, ◌-◌, ◌<◌, ◌≤◌, IfOk, drop, filter, length, take};
ghost use Rattle.node_classes.specs.Ways.{AreRunStarts, Ascend, BeginsAt, comes_from};

use crate::way::Way;
use std::alloc::{AllocError, Global};

// Where the ways of a node end, which begin at a place.
fn run_end(ways: &[Way], start: usize, node: u32) -> usize
    requires order { Ascend ways.now }
    requires start { BeginsAt ways.now node start }
    ensures { BeginsAt ways.now (node + 1) result }
{
    let mut end = start;
    'run: while end < ways.len() {
        if node < ways[end].from {
            break;
        }
        end += 1;
    }
    end
}

/// Where the ways of each of so many nodes begin, and where those of the last one end.
pub(crate) fn run_starts(alloc: Global, count: u32, ways: &[Way]) -> Result<Vec<usize>, AllocError>
    requires { Ascend ways.now }
    ensures starts { IfOk result (λ starts. AreRunStarts ways.now starts.items) }
    ensures count { IfOk result (λ starts. length starts.items ≡ count + 1) }
{
    let mut starts = Vec::new(alloc);
    let mut place = 0;
    starts.push(place)?;
    for node in 0..count {
        place = run_end(ways, place, node);
        starts.push(place)?;
    }
    Ok(starts)
}

// Where the ways of a node begin and end, by where those of each node begin.
fn ends_by(ways: &[Way], starts: &[usize], node: u32) -> (usize, usize)
    requires starts { AreRunStarts ways.now starts.now }
    requires node { node + 1 < length starts.now }
    ensures order { result.0 ≤ result.1 }
    ensures bound { result.1 ≤ length ways.now }
    ensures run { take (result.1 - result.0) (drop result.0 ways.now) ≡ filter (comes_from node) ways.now }
{
    let place = node as usize;
    (starts[place], starts[place + 1])
}

/// The ways of a node, by where those of each node begin.
pub(crate) fn run_of<'a>(ways: &'a [Way], starts: &[usize], node: u32) -> &'a [Way]
    requires starts { AreRunStarts ways.now starts.now }
    requires node { node + 1 < length starts.now }
    ensures { result.now ≡ filter (comes_from node) ways.now }
{
    let (start, end) = ends_by(ways, starts, node);
    &ways[start..end]
}
