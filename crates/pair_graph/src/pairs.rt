//! Graphs of pairs.
ghost use Rattle.std.specs.Prelude.{◌≡◌, ◌<◌, IfOk, length};
ghost use Rattle.graph_base.specs.Runs.{is_start as is_start_of};
ghost use Rattle.graph_base.specs.Walks.{IsShownWalk};
ghost use Rattle.pair_graph.specs.Made.{AreFinders};

use crate::pair::NodePair;
use graph_base::Graph;
use input_output::NoMemory;
use net_base::{List, Loc};
use std::alloc::Global;

/// A graph whose nodes stand for pairs of nodes of two graphs.
#[derive(Drop)]
pub struct PairGraph {
    /// The graph. Its nodes have no ranks of their own.
    pub graph: Graph,
    /// The pair of each node.
    pub pairs: List<NodePair>,
    /// For each node that is no start the least one that steps to it.
    pub(crate) before: List<u32>,
    ghost size: { length before ≡ length graph.nodes },
    ghost finders: { AreFinders graph before },
}

// Whether a node is a start.
fn is_start(graph: &Graph, node: u32) -> bool
    ensures { result ≡ is_start_of graph.now node }
{
    graph.starts().contains(&node)
}

impl PairGraph {
    /// The walk by which a node is shown: the places from the node back to a start, over the least-numbered node that steps to
    /// each. It is the first of the shortest walks to the node.
    pub fn walk(&self, alloc: Global, node: u32) -> Result<List<Loc>, NoMemory>
        requires { node < length self.now.graph.nodes }
        ensures { IfOk result (λ walk. IsShownWalk self.now.graph node walk) }
    {
        let mut walk = List::new(alloc);
        let mut last = node;
        let before = self.before.as_slice();
        'back: while !is_start(&self.graph, last) {
            walk.push(self.graph.location(last))?;
            last = before[last as usize];
        }
        walk.push(self.graph.location(last))?;
        Ok(walk)
    }
}
