//! One of two graphs, by location.
ghost use Rattle.std.specs.Prelude.{◌≡◌, ℕ, IfOk, filter, option_and_then};
ghost use Rattle.graph_base.specs.Graphs.{PlainGraph};
ghost use Rattle.graph_base.specs.Runs.{start_at, step_at};
ghost use Rattle.pair_graph.specs.Ways.{AreInOrder, AreLow, AreRuns, AreStarts, AreSteps, comes_from, taken};

use crate::runs::{begins_of, run_of};
use crate::way::{Way, sort_by_place, sort_by_turn};
use graph_base::Graph;
use std::alloc::{AllocError, Global};

/// Where walks start in a graph and where its steps lead, each in order of location.
#[derive(Drop)]
pub(crate) struct Side {
    /// The starts.
    starts: Vec<Way>,
    /// The steps, in order of the nodes that step.
    ways: Vec<Way>,
    /// For each node where its steps begin, and where those of the last one end.
    begins: Vec<usize>,
    ghost starts_order: { AreInOrder starts.items },
    ghost order: { (n : ℕ) → AreInOrder (filter (comes_from n) ways.items) },
    ghost runs: { AreRuns ways.items begins.items },
}

// The starts of a graph.
fn starts_of(alloc: Global, graph: &Graph) -> Result<Vec<Way>, AllocError>
    ensures { IfOk result (λ ways. AreStarts graph.now ways.items) }
{
    let starts = graph.starts();
    let mut ways = Vec::with_capacity(alloc, starts.len())?;
    for i in 0..starts.len() {
        let to = starts[i];
        let place = graph.location(to).number();
        ways.push(Way { from: 0, place, to })?;
    }
    Ok(ways)
}

// The steps of a graph.
fn steps_of(alloc: Global, graph: &Graph) -> Result<Vec<Way>, AllocError>
    ensures low { IfOk result (λ ways. AreLow ways.items) }
    ensures steps { IfOk result (λ ways. AreSteps graph.now ways.items) }
{
    let steps = graph.steps();
    let mut ways = Vec::with_capacity(alloc, steps.len())?;
    for i in 0..steps.len() {
        let (from, to) = steps[i];
        let place = graph.location(to).number();
        ways.push(Way { from, place, to })?;
    }
    Ok(ways)
}

impl Side {
    ghost use Rattle.pair_graph.specs.Sides.{IsSide};

    /// This side of a graph.
    pub(crate) fn new(alloc: Global, graph: &Graph) -> Result<Side, AllocError>
        ensures { IfOk result (IsSide graph.now) }
    {
        let mut starts = starts_of(alloc, graph)?;
        sort_by_place(&mut starts)?;
        let mut ways = steps_of(alloc, graph)?;
        sort_by_turn(&mut ways)?;
        let begins = begins_of(alloc, graph.nodes().len() as u32, &ways)?;
        Ok(Side {
            starts,
            ways,
            begins,
        })
    }

    /// The starts, in order of location.
    pub(crate) fn starts(&self) -> &[Way]
        ensures order { AreInOrder result.now }
        ensures taken { (g : PlainGraph) (l : ℕ) → IsSide g self.now → taken result.now l ≡ start_at g l }
    {
        self.starts.as_slice()
    }

    // The steps of a node, in order of location.
    fn ways_of(&self, node: u32) -> &[Way]
        ensures order { AreInOrder result.now }
        ensures taken { (g : PlainGraph) (l : ℕ) → IsSide g self.now → taken result.now l ≡ step_at g node l }
    {
        if node as usize + 1 < self.begins.len() {
            return run_of(&self.ways, &self.begins, node);
        }
        &[]
    }

    /// The steps of a node, in order of location; and none where there is no node.
    pub(crate) fn steps(&self, node: Option<u32>) -> &[Way]
        ensures order { AreInOrder result.now }
        ensures taken { (g : PlainGraph) (l : ℕ) → IsSide g self.now → taken result.now l ≡ option_and_then (λ n. step_at g n l) node }
    {
        match node {
            Some(node) => self.ways_of(node),
            None => &[],
        }
    }
}
