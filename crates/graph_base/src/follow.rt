//! Steps that are followed one by one.
ghost use Rattle.std.specs.Prelude.{◌≡◌, ℕ, ◌<◌, IfOk, IsTrue, length, slice_index_or};
ghost use Rattle.graph_base.specs.Runs.{has_step, is_start as is_start_of, step_at};
ghost use Rattle.graph_base.specs.Walks.{IsEnteredFromBefore, IsFirstBefore, IsShownWalk};

use crate::graph::Graph;
use input_output::NoMemory;
use net_base::{List, Loc};
use std::alloc::{AllocError, Global};

/// The node to which a node steps at a location.
pub fn step_of(graph: &Graph, node: u32, at: Loc) -> Option<u32>
    requires { node < length graph.now.nodes }
    ensures { result ≡ step_at graph.now node at }
{
    for (from, to) in graph.steps() {
        if *from == node && graph.location(*to) == at {
            return Some(*to);
        }
    }
    None
}

/// The walk by which a node is shown: the places from the node back to a start, over the least-numbered
/// node that steps to each.
pub fn walk_of(alloc: Global, graph: &Graph, node: u32) -> Result<List<Loc>, NoMemory>
    requires node { node < length graph.now.nodes }
    requires entered { IsEnteredFromBefore graph.now }
    ensures { IfOk result (λ walk. IsShownWalk graph.now node walk) }
{
    let firsts = firsts_before(alloc, graph)?;
    let mut walk = List::new(alloc);
    let mut last = node;
    'back: while !is_start(graph, last) {
        walk.push(graph.location(last))?;
        last = firsts[last as usize];
    }
    walk.push(graph.location(last))?;
    Ok(walk)
}

// Whether a node is a start.
fn is_start(graph: &Graph, node: u32) -> bool
    ensures { result ≡ is_start_of graph.now node }
{
    graph.starts().contains(&node)
}

// For each node the least-numbered node that steps to it, and the greatest number where no node does.
fn firsts_before(alloc: Global, graph: &Graph) -> Result<Vec<u32>, AllocError>
    ensures size { IfOk result (λ firsts. length firsts.items ≡ length graph.now.nodes) }
    ensures first { IfOk result (λ firsts. (m n : ℕ) → IsTrue (has_step graph.now m n) → IsFirstBefore graph.now (slice_index_or firsts.items n 0) n) }
{
    let mut firsts = vec![in alloc; u32::MAX; graph.nodes().len()]?;
    for (from, to) in graph.steps() {
        let first = &mut firsts[*to as usize];
        *first = (*first).min(*from);
    }
    Ok(firsts)
}
