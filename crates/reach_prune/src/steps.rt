//! The neighbours of each node.
ghost use Rattle.std.specs.Prelude.{◌≡◌, ◌<◌, ℕ, IfOk, length};
ghost use Rattle.reach_prune.specs.Searches.{AreLists, is_listed};
ghost use Rattle.reach_prune.specs.Ways.{ends, nth, step_along};

use bit_rows::{NodeList, lists_with_room};
use graph_base::Graph;
use input_output::NoMemory;
use std::alloc::{AllocError, Global};

/// Which way steps are followed.
#[derive(Clone, Copy)]
pub enum Way {
    /// As a route travels.
    Forward,
    /// Against it.
    Backward,
}

impl Way {
    /// The node at a place of the order, of so many, in which nodes come behind most of those to which steps lead
    /// from them this way.
    pub(crate) fn nth(self, size: u32, place: u32) -> u32
        requires { place < size }
        ensures { result ≡ nth self size place }
    {
        match self {
            Way::Forward => size - 1 - place,
            Way::Backward => place,
        }
    }

    // The ends of a step in the order in which it is followed.
    fn ends(self, step: (u32, u32)) -> (u32, u32)
        ensures { result ≡ ends self step }
    {
        match self {
            Way::Forward => step,
            Way::Backward => (step.1, step.0),
        }
    }
}

/// For each node those to which one step leads, forward or backward.
pub fn neighbours(alloc: Global, graph: &Graph, way: Way) -> Result<Vec<NodeList>, NoMemory>
    ensures size { IfOk result (λ lists. length lists.items ≡ length graph.now.nodes) }
    ensures lists { IfOk result (λ lists. AreLists lists.items) }
    ensures steps { IfOk result (λ lists. (a b : ℕ) → is_listed lists.items a b ≡ step_along way graph.now a b) }
{
    let mut lists = lists_with_room(alloc, &step_counts(alloc, graph, way)?)?;
    for step in graph.steps() {
        let (node, neighbour) = way.ends(*step);
        lists[node as usize].push(neighbour)?;
    }
    Ok(lists)
}

// How many steps lead from each node this way: the room that its list of neighbours needs.
fn step_counts(alloc: Global, graph: &Graph, way: Way) -> Result<Vec<u32>, AllocError>
    ensures { IfOk result (λ counts. length counts.items ≡ length graph.now.nodes) }
{
    let mut counts = vec![in alloc; 0u32; graph.nodes().len()]?;
    for step in graph.steps() {
        let (node, _) = way.ends(*step);
        let count = &mut counts[node as usize];
        *count = count.saturating_add(1);
    }
    Ok(counts)
}
