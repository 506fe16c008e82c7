//! Two graphs by location, and how walks of pairs go in them.
ghost use Rattle.std.specs.Prelude.{IfOk, OnOk};
ghost use Rattle.graph_base.specs.Graphs.{PlainGraph};
ghost use Rattle.pair_graph.specs.Nexts.{AreNexts};
ghost use Rattle.pair_graph.specs.Pairs.{start_pair, step_pair};
ghost use Rattle.pair_graph.specs.Sides.{AreSides};

use crate::merging::merge;
use crate::pair::NodePair;
use crate::side::Side;
use graph_base::Graph;
use std::alloc::{AllocError, Global};

/// Two graphs by location.
#[derive(Drop)]
pub(crate) struct Sides {
    first: Side,
    second: Side,
}

impl Sides {
    /// The sides of two graphs.
    pub(crate) fn new(alloc: Global, first: &Graph, second: &Graph) -> Result<Sides, AllocError>
        ensures { IfOk result (AreSides first.now second.now) }
    {
        Ok(Sides {
            first: Side::new(alloc, first)?,
            second: Side::new(alloc, second)?,
        })
    }

    /// The starts, in order of location. They take the place of what was there.
    pub(crate) fn starts(&self, pairs: &mut Vec<NodePair>) -> Result<(), AllocError>
        ensures { (g h : PlainGraph) → AreSides g h self.now → OnOk result (AreNexts (start_pair g h) pairs.new.items) }
    {
        merge(self.first.starts(), self.second.starts(), pairs)
    }

    /// The pairs to which a pair steps, in order of location. They take the place of what was there.
    pub(crate) fn steps(&self, pair: &NodePair, pairs: &mut Vec<NodePair>) -> Result<(), AllocError>
        ensures { (g h : PlainGraph) → AreSides g h self.now → OnOk result (AreNexts (step_pair g h pair.now) pairs.new.items) }
    {
        merge(
            self.first.steps(pair.first),
            self.second.steps(pair.second),
            pairs,
        )
    }
}
