//! The graph of a single case, what can be reached in it, its relation and its refutation.
ghost use Rattle.std.specs.Prelude.{IfSome};
ghost use Rattle.graph_base.specs.Refuting.{HasSingleSteps};
ghost use Rattle.reach_prune.specs.Reachable.{IsReachOf};
ghost use Rattle.state_simulation.specs.Held.{IsRelationOf};

use case_core::build;
use constraint_expand::expand;
use graph_base::{Graph, Refutation, Removed, Why, ranked_routers, step_of};
use graph_law::built_graphs_are_well_formed;
use input_output::NoMemory;
use net_base::{Loc, LocSet, Net};
use policy_base::{Policy, cases};
use reach_prune::{Reach, reach};
use relation_refute::refute;
use state_simulation::{Relation, relation};
use std::alloc::Global;
use test_networks::{Network, read};

// How many steps a graph may have here.
const STEPS: u32 = 100;

// A network and a policy of one statement, and the graph of its first case: how many nodes it has; to which node a node steps at a
// location; which node can be reached from which; which node may stand at least as high as which; and whether the relation is
// total. Where it isn't, the refutation is that of the chain.
#[derive(Clone, Copy)]
struct Row {
    network: Network,
    policy: &'static str,
    nodes: usize,
    steps: &'static [(u32, u16, Option<u32>)],
    reached: &'static [(u32, u32, bool)],
    above: &'static [(u32, u32, bool)],
    is_total: bool,
}

// D, B, X and C in a ring are 0 to 3. Nodes 1 and 4 stand at B, 2 and 5 at C: first the short way, then the way round.
const DETOUR: Row = Row {
    network: Network::Ring,
    policy: "originate 10.0.1.0/24 at D; 10.0.1.0/24 => avoid(X) >> any;",
    nodes: 6,
    steps: &[
        (0, 1, Some(1)),
        (3, 1, Some(4)),
        (3, 3, Some(5)),
        (1, 0, None),
    ],
    reached: &[
        (0, 5, true),
        (4, 5, true),
        (3, 3, true),
        (1, 2, false),
        (5, 0, false),
    ],
    above: &[
        (1, 4, true),
        (4, 1, false),
        (2, 5, true),
        (5, 2, false),
        (3, 3, true),
        (0, 1, false),
    ],
    is_total: true,
};

// D, X and W in a row are 0 to 2. X stands at 1 before the waypoint W, which is at 2, and at 3 behind it.
const WAYPOINT: Row = Row {
    network: Network::Chain,
    policy: "originate 10.0.1.0/24 at D; 10.0.1.0/24 => through(W) >> any;",
    nodes: 4,
    steps: &[(1, 2, Some(2)), (2, 1, Some(3)), (2, 0, None)],
    reached: &[(0, 3, true), (3, 2, true), (3, 1, false), (1, 0, false)],
    above: &[(1, 3, false), (2, 2, false), (3, 1, false), (0, 0, false)],
    is_total: false,
};

// Whether a node steps at each location to the node that is said.
fn are_steps(graph: &Graph, row: &Row) -> bool {
    for (node, at, to) in row.steps {
        if *node as usize >= graph.nodes().len() || step_of(graph, *node, Loc::new(*at)) != *to {
            return false;
        }
    }
    true
}

// Whether each node can be reached that is said, and no other one.
fn are_reached(graph: &Graph, reach: &Reach, row: &Row) -> bool
    requires { IsReachOf graph.now reach.now }
{
    let size = graph.nodes().len();
    for (from, to, is_reached) in row.reached {
        let are_nodes = (*from as usize) < size && (*to as usize) < size;
        if !are_nodes || reach.has(*from, *to) != *is_reached {
            return false;
        }
    }
    true
}

// Whether each node stands as high as is said.
fn are_above(relation: &Relation, row: &Row) -> bool {
    for (better, worse, is_above) in row.above {
        if relation.has(*better, *worse) != *is_above {
            return false;
        }
    }
    true
}

// Whether it is W alone that is refuted: X before the waypoint is worse than behind it, and W's path leads over X.
fn is_of_chain(refutation: &Refutation) -> bool {
    let [first, second] = refutation.lines.as_slice() else {
        return false;
    };
    let (x, w) = (Loc::new(1), Loc::new(2));
    refutation.router == w
        && refutation.first == 2
        && refutation.second == 2
        && *first
            == Removed {
                better: 1,
                worse: 3,
                round: 1,
                why: Why::RankWorse,
            }
        && *second
            == Removed {
                better: 2,
                worse: 2,
                round: 2,
                why: Why::LoopWorse(x, 1),
            }
}

// Whether the refutation of a relation is the one of its row.
fn is_refuted(refutation: &Option<Refutation>, row: &Row) -> bool {
    match refutation {
        None => row.is_total,
        Some(refutation) => !row.is_total && is_of_chain(refutation),
    }
}

// Whether the relation of a graph is a row's.
fn is_related(
    alloc: Global,
    graph: &Graph,
    reach: &Reach,
    claimed: &LocSet,
    row: &Row,
) -> Result<bool, NoMemory>
    requires reach { IsReachOf graph.now reach.now }
    requires single { HasSingleSteps graph.now }
{
    let relation = relation(alloc, graph, reach, claimed)?;
    let refutation = refute(alloc, graph, reach, claimed, &relation)?;
    Ok(are_above(&relation, row) && is_refuted(&refutation, row))
}

// Whether a graph is a row's.
fn is_drawn(alloc: Global, net: &Net, graph: &Graph, row: &Row) -> Result<bool, NoMemory>
    requires { HasSingleSteps graph.now }
{
    let reach = reach(alloc, graph)?;
    let claimed = ranked_routers(net, graph);
    let is_related = is_related(alloc, graph, &reach, &claimed, row)?;
    let is_walked = are_steps(graph, row) && are_reached(graph, &reach, row);
    Ok(graph.nodes().len() == row.nodes && is_walked && is_related)
}

// The graph of the first case of a policy by its first statement.
fn built(alloc: Global, net: &Net, policy: &Policy) -> Option<Graph>
    ensures { IfSome result HasSingleSteps }
{
    let cases = cases(alloc, net, policy).ok()?;
    let case = cases.cases.as_slice().first()?;
    let statement = policy.statements().first()?;
    let ranked = expand(alloc, &statement.ranked, net).ok()?;
    built_graphs_are_well_formed();
    match build(alloc, net, case, &statement.from, &ranked, STEPS) {
        Ok(graph) => Some(graph),
        Err(_) => None,
    }
}

// Whether the texts of a row are read, and have its graph.
fn is_right(alloc: Global, row: &Row) -> Result<bool, NoMemory> {
    let Some((net, policy)) = read(alloc, row.network, row.policy) else {
        return Ok(false);
    };
    match built(alloc, &net, &policy) {
        Some(graph) => is_drawn(alloc, &net, &graph, row),
        None => Ok(false),
    }
}

/// The place of the first of two rows whose graph, relation or refutation is another one.
pub fn wrong_relation(alloc: Global) -> Result<Option<usize>, NoMemory> {
    if !is_right(alloc, &DETOUR)? {
        return Ok(Some(0));
    }
    if !is_right(alloc, &WAYPOINT)? {
        return Ok(Some(1));
    }
    Ok(None)
}
