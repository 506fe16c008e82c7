//! The graph of pairs.
ghost use Rattle.std.specs.Prelude.{◌≡◌, ◌≤◌, ℕ, IfOk, IsErrOf, length};
ghost use Rattle.net_base.specs.Locations.{numbers_below};
ghost use Rattle.graph_base.specs.Graphs.{PlainGraph};
ghost use Rattle.pair_graph.specs.Growth.{AreWalks, IsGrown, Walks};
ghost use Rattle.pair_graph.specs.Made.{IsPairGraph};
ghost use Rattle.pair_graph.specs.Pairs.{walks_of};
ghost use Rattle.pair_graph.specs.Room.{HasPairSteps, PassesRoom};

use crate::fault::PairFault;
use crate::growing::Growing;
use crate::pairs::PairGraph;
use crate::sides::Sides;
use graph_base::Graph;
use net_base::List;
use std::alloc::{AllocError, Global};

// The numbers below a count.
fn numbers(alloc: Global, count: u32) -> Result<List<u32>, AllocError>
    ensures { IfOk result (λ ns. ns ≡ numbers_below count) }
{
    let mut all = List::new(alloc);
    for number in 0..count {
        all.push(number)?;
    }
    Ok(all)
}

// The graph of the pairs that were found, of which so many are starts.
fn graph_of(alloc: Global, growing: Growing, starts: u32) -> Result<PairGraph, AllocError>
    requires { (w : Walks) × (k : ℕ) × AreWalks w × (length growing.pairs.keys ≤ k) × IsGrown w starts growing.pairs.keys growing.before.items growing.steps.items k 0 }
    ensures graph { (g h : PlainGraph) (k : ℕ) → AreWalks (walks_of g h) → length growing.pairs.keys ≤ k
        → IsGrown (walks_of g h) starts growing.pairs.keys growing.before.items growing.steps.items k 0 → IfOk result (λ p. IsPairGraph g h p.pairs p.graph) }
    ensures steps { IfOk result (λ p. p.graph.steps ≡ growing.steps.items) }
{
    let starts = numbers(alloc, starts)?;
    let nodes = growing.nodes(alloc)?;
    let pairs = growing.listed(alloc)?;
    let (before, steps) = growing.into_parts();
    Ok(PairGraph {
        graph: Graph::new(nodes, starts, steps),
        pairs,
        before,
    })
}

/// The graph of the pairs of nodes to which the same walks lead in two graphs, with at most `room` steps. A pair has a node
/// where some walk leads to one of its nodes or to both. The nodes are numbered by the first of the shortest walks to each.
pub fn pair_graph(
    alloc: Global,
    first: &Graph,
    second: &Graph,
    room: u32,
) -> Result<PairGraph, PairFault>
    ensures graph { IfOk result (λ p. IsPairGraph first.now second.now p.pairs p.graph) }
    ensures steps { IfOk result (λ p. HasPairSteps first.now second.now (length p.graph.steps)) }
    ensures room { IfOk result (λ p. length p.graph.steps ≤ room) }
    ensures many { IsErrOf result PairFault.TooManySteps → PassesRoom first.now second.now room }
{
    let sides = Sides::new(alloc, first, second)?;
    // mostly there is a pair for each node of the greater graph, or for each of both
    let mut growing = Growing::new(alloc, first.nodes().len() + second.nodes().len())?;
    growing.add_starts(alloc, &sides)?;
    let starts = growing.len();
    growing.walk(alloc, &sides, room)?;
    let graph = graph_of(alloc, growing, starts)?;
    Ok(graph)
}
