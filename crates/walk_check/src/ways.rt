//! The steps of two graphs in one list.
ghost use Rattle.std.specs.Prelude.{◌≡◌, ◌↔◌, ◌+◌, ◌≤◌, ◌<◌, ◌^◌, ◌++◌, All, IfOk, OnOk, length, map};
ghost use Rattle.list_law.specs.Members.{IsIn};
ghost use Rattle.graph_base.specs.declared.graph.TheConstants.{MAX_NODES};
ghost use Rattle.node_classes.specs.declared.way.Way.{Way as PlainWay};
ghost use Rattle.node_classes.specs.Ways.{Ascend};
ghost use Rattle.walk_check.specs.Alike.{IsSingleStepped};
ghost use Rattle.walk_check.specs.WaysOf.{both_sizes, start_way, step_way, ways_of_both};

use graph_base::Graph;
use node_classes::{Way, put_in_order};
use std::alloc::{AllocError, Global};

// Puts a way from a root to each start behind others. The nodes are counted from `first`.
fn add_starts(ways: &mut Vec<Way>, graph: &Graph, first: u32, root: u32) -> Result<(), AllocError>
    requires { first + length graph.now.nodes < 2 ^ 32 }
    ensures { OnOk result (ways.new.items ≡ ways.old.items ++ map (start_way graph.now first root) graph.now.starts) }
{
    for start in graph.starts() {
        ways.push(Way {
            from: root,
            at: graph.location(*start).number(),
            to: first + *start,
        })?;
    }
    Ok(())
}

// Puts the way of each step behind others.
fn add_steps(ways: &mut Vec<Way>, graph: &Graph, first: u32) -> Result<(), AllocError>
    requires { first + length graph.now.nodes < 2 ^ 32 }
    ensures { OnOk result (ways.new.items ≡ ways.old.items ++ map (step_way graph.now first) graph.now.steps) }
{
    for step in graph.steps() {
        ways.push(Way {
            from: first + step.0,
            at: graph.location(step.1).number(),
            to: first + step.1,
        })?;
    }
    Ok(())
}

// How many ways a graph gives. No clause says it: with less room the ways grow.
fn way_count(graph: &Graph) -> usize {
    graph.starts().len().saturating_add(graph.steps().len())
}

/// The ways of both graphs in order: the nodes of the one, behind them those of the other, and then a root of each, which
/// steps to its starts. They are put so that little is left to sort: the steps of a graph are mostly in order.
pub(crate) fn both_ways(alloc: Global, live: &Graph, graph: &Graph) -> Result<Vec<Way>, AllocError>
    requires live { IsSingleStepped live.now }
    requires graph { IsSingleStepped graph.now }
    requires room { both_sizes live.now graph.now ≤ MAX_NODES }
    ensures order { IfOk result (λ ways. Ascend ways.items) }
    ensures ends { IfOk result (λ ways. All (λ w. w.to < both_sizes live.now graph.now + 2) ways.items) }
    ensures same { IfOk result (λ ways. (way : PlainWay) → IsIn ways.items way ↔ IsIn (ways_of_both live.now graph.now) way) }
{
    let size = live.nodes().len() as u32;
    let root = size + graph.nodes().len() as u32;
    let mut ways = Vec::with_capacity(alloc, way_count(live).saturating_add(way_count(graph)))?;
    add_steps(&mut ways, live, 0)?;
    add_steps(&mut ways, graph, size)?;
    add_starts(&mut ways, live, 0, root)?;
    add_starts(&mut ways, graph, size, root + 1)?;
    put_in_order(&mut ways);
    Ok(ways)
}
