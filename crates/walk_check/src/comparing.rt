//! Whether the same paths have runs in two graphs.
ghost use Rattle.std.specs.Prelude.{◌≡◌, ℕ, ◌+◌, ◌<◌, ◌≤◌, IfNone, IfOk, IfSome, length};
ghost use Rattle.graph_base.specs.Graphs.{IsGraph};
ghost use Rattle.node_classes.specs.Classes.{class_in};
ghost use Rattle.walk_check.specs.Alike.{AreAlike, AreUnlike, IsSingleStepped};

use crate::ways::both_ways;
use graph_base::{Graph, MAX_NODES};
use input_output::NoMemory;
use net_base::List;
use node_classes::classes;
use std::alloc::{AllocError, Global};

/// The class of each node of two graphs. A class bears the number of the least of its nodes, those of the first graph
/// before those of the other; so where a node of the first graph is of a class, such a node bears its number.
#[derive(Drop)]
pub struct WalkClasses {
    /// The class of each node of the first graph, the live one.
    pub live: List<u32>,
    /// The class of each node of the other graph.
    pub graph: List<u32>,
}

// The classes of two graphs apart, of which the first has so many nodes.
fn split(alloc: Global, all: &[u32], size: usize, other: usize) -> Result<WalkClasses, AllocError>
    requires { size + other ≤ length all.now }
    ensures live { IfOk result (λ k. (p : ℕ) → p < size → class_in k.live p ≡ class_in all.now p) }
    ensures graph { IfOk result (λ k. (n : ℕ) → n < other → class_in k.graph n ≡ class_in all.now (size + n)) }
{
    let live = Vec::from_slice(alloc, &all[..size])?;
    let graph = Vec::from_slice(alloc, &all[size..size + other])?;
    Ok(WalkClasses {
        live: List::from_vec(live),
        graph: List::from_vec(graph),
    })
}

/// The classes of the nodes of two graphs in which the same paths have runs, or None where some path has a run in one of
/// them alone. Graphs of more nodes than 32 bits can count together are answered by want of memory.
pub fn alike(alloc: Global, live: &Graph, graph: &Graph) -> Result<Option<WalkClasses>, NoMemory>
    requires live { IsSingleStepped live.now }
    requires graph { IsSingleStepped graph.now }
    ensures alike { IfOk result (λ o. IfSome o (λ classes. AreAlike live.now graph.now classes)) }
    ensures unlike { IfOk result (λ o. IfNone o (AreUnlike live.now graph.now)) }
    ensures rules { IsGraph live.now × IsGraph graph.now }
{
    let size = live.nodes().len();
    let other = graph.nodes().len();
    if size + other > MAX_NODES {
        return Err(NoMemory);
    }
    let ways = both_ways(alloc, live, graph)?;
    let root = (size + other) as u32;
    let Some(all) = classes(alloc, root + 2, &ways, root, root + 1)? else {
        return Ok(None);
    };
    let found = split(alloc, &all, size, other)?;
    Ok(Some(found))
}
