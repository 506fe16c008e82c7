//! The search for nodes that nothing tells apart.
ghost use Rattle.std.specs.Prelude.{◌≡◌, ◌<◌, ℕ, IfOk, length};
ghost use Rattle.graph_base.specs.Refuting.{HasSingleSteps};
ghost use Rattle.graph_base.specs.Graphs.{IsGraph};
ghost use Rattle.graph_base.specs.Runs.{has_step};
ghost use Rattle.reach_prune.specs.Searches.{is_listed};
ghost use Rattle.node_quotient.specs.Alike.{AreFirstSame, AreInside, class_in};
ghost use Rattle.node_quotient.specs.Quotient.{AreLeast};
ghost use Rattle.node_quotient.specs.Rounds.{AreClasses};

use crate::partition::split_classes;
use crate::round::next_round;
use bit_rows::NodeList;
use graph_base::Graph;
use input_output::NoMemory;
use reach_prune::{Way, neighbours};
use std::alloc::{AllocError, Global};

// For each node the least one that nothing tells apart from it, where `classes` are the first ones.
fn settled_classes(
    alloc: Global,
    graph: &Graph,
    lists: &[NodeList],
    classes: Vec<u32>,
) -> Result<Vec<u32>, AllocError>
    requires graph { IsGraph graph.now }
    requires single { HasSingleSteps graph.now }
    requires size { length lists.now ≡ length graph.now.nodes }
    requires inside { AreInside lists.now (length graph.now.nodes) }
    requires steps { (a b : ℕ) → is_listed lists.now a b ≡ has_step graph.now a b }
    requires given { length classes.items ≡ length graph.now.nodes }
    requires classes { AreClasses graph.now (class_in classes.items) }
    ensures size { IfOk result (λ least. length least.items ≡ length graph.now.nodes) }
    ensures least { IfOk result (λ least. AreLeast graph.now (class_in least.items)) }
{
    let mut least = classes;
    let mut settled = false;
    'rounds: while !settled {
        let next = next_round(alloc, lists, &least)?;
        settled = next == least;
        least = next;
    }
    Ok(least)
}

/// For each node the least one that nothing tells apart from it, where `first` are the first ones of their location and rank.
pub fn least_joined(alloc: Global, graph: &Graph, first: Vec<u32>) -> Result<Vec<u32>, NoMemory>
    requires graph { IsGraph graph.now }
    requires single { HasSingleSteps graph.now }
    requires first { AreFirstSame graph.now (length graph.now.nodes) first.items }
    ensures size { IfOk result (λ least. length least.items ≡ length graph.now.nodes) }
    ensures least { IfOk result (λ least. AreLeast graph.now (class_in least.items)) }
{
    let before = neighbours(alloc, graph, Way::Backward)?;
    let classes = split_classes(alloc, graph, &before, first)?;
    let lists = neighbours(alloc, graph, Way::Forward)?;
    let least = settled_classes(alloc, graph, &lists, classes)?;
    Ok(least)
}
