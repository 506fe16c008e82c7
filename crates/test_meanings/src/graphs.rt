//! Graphs of small networks, worked by hand.
ghost use Rattle.std.specs.Prelude.{◌≡◌};
ghost use Rattle.policy_base.specs.Policies.{policy_of};
ghost use Rattle.policy_base.specs.Cases.{case_list};
ghost use Rattle.policy_base.specs.CaseNumbers.{OriginsAreRouters};

use crate::wrong::Wrong;
use case_core::case_graph;
use graph_base::{Graph, Node};
use net_base::{Loc, Net};
use policy_base::{CaseList, Policy, cases};
use std::alloc::Global;
use test_networks::{Network, read};

// A graph: the location of each node, whether it hears, and its rank; the starts; the steps.
#[derive(Clone, Copy)]
struct Drawing {
    nodes: &'static [(u16, bool, Option<u32>)],
    starts: &'static [u32],
    steps: &'static [(u32, u32)],
}

fn is_node(node: &Node, point: &(u16, bool, Option<u32>)) -> bool {
    node.loc == Loc::new(point.0) && node.listener == point.1 && node.rank == point.2
}

// Whether the nodes are the drawn ones.
fn are_nodes(nodes: &[Node], points: &[(u16, bool, Option<u32>)]) -> bool {
    if nodes.len() != points.len() {
        return false;
    }
    for i in 0..nodes.len() {
        if !is_node(&nodes[i], &points[i]) {
            return false;
        }
    }
    true
}

// Whether the steps are the drawn ones.
fn are_steps(steps: &[(u32, u32)], drawn: &[(u32, u32)]) -> bool {
    if steps.len() != drawn.len() {
        return false;
    }
    for i in 0..steps.len() {
        if steps[i].0 != drawn[i].0 || steps[i].1 != drawn[i].1 {
            return false;
        }
    }
    true
}

// Whether a graph is the drawn one.
fn is_drawn(graph: &Graph, drawing: &Drawing) -> bool {
    are_nodes(graph.nodes(), drawing.nodes)
        && graph.starts() == drawing.starts
        && are_steps(graph.steps(), drawing.steps)
}

// A network and a policy, how many steps are built of its first case, and the graph of the case.
#[derive(Clone, Copy)]
struct Row {
    name: &'static str,
    network: Network,
    policy: &'static str,
    built: u32,
    graph: Drawing,
}

// The steps of a ring with two ways round: the middle has one node, its neighbours have two.
const RING_STEPS: &[(u32, u32)] = &[
    (0, 1),
    (0, 2),
    (1, 3),
    (2, 3),
    (3, 4),
    (3, 5),
    (4, 3),
    (5, 3),
];

// The row of this number.
fn nth_row(number: usize) -> Option<Row> {
    Some(match number {
        0 => Row {
            name: "two exits in order",
            network: Network::TwoExits,
            policy: "true => exit(P1 >> P2);",
            built: 6,
            graph: Drawing {
                nodes: &[
                    (2, false, None),
                    (3, false, None),
                    (0, false, Some(1)),
                    (1, false, Some(2)),
                    (1, false, Some(1)),
                    (0, false, Some(2)),
                ],
                starts: &[0, 1],
                steps: &[(0, 2), (1, 3), (2, 4), (3, 5), (4, 2), (5, 3)],
            },
        },
        1 => Row {
            name: "dropped paths",
            network: Network::TwoRouters,
            policy: "originate 10.0.1.0/24 at A; 10.0.1.0/24 => drop;",
            built: 0,
            graph: Drawing {
                nodes: &[],
                starts: &[],
                steps: &[],
            },
        },
        2 => Row {
            name: "a detour",
            network: Network::Ring,
            policy: "originate 10.0.1.0/24 at D; 10.0.1.0/24 => avoid(X) >> any;",
            built: 8,
            graph: Drawing {
                nodes: &[
                    (0, false, None),
                    (1, false, Some(1)),
                    (3, false, Some(1)),
                    (2, false, Some(2)),
                    (1, false, Some(2)),
                    (3, false, Some(2)),
                ],
                starts: &[0],
                steps: RING_STEPS,
            },
        },
        3 => Row {
            name: "a waypoint",
            network: Network::Ring,
            policy: "originate 10.0.1.0/24 at D; 10.0.1.0/24 => through(X) >> any;",
            built: 8,
            graph: Drawing {
                nodes: &[
                    (0, false, None),
                    (1, false, Some(2)),
                    (3, false, Some(2)),
                    (2, false, Some(1)),
                    (1, false, Some(1)),
                    (3, false, Some(1)),
                ],
                starts: &[0],
                steps: RING_STEPS,
            },
        },
        4 => Row {
            name: "a waypoint at the end",
            network: Network::Chain,
            policy: "originate 10.0.1.0/24 at D; 10.0.1.0/24 => through(W) >> any;",
            built: 4,
            graph: Drawing {
                nodes: &[
                    (0, false, None),
                    (1, false, Some(2)),
                    (2, false, Some(1)),
                    (1, false, Some(1)),
                ],
                starts: &[0],
                steps: &[(0, 1), (1, 2), (2, 3), (3, 2)],
            },
        },
        5 => Row {
            name: "no way through the leaves: A1 has a node before a spine was passed and one after",
            network: Network::TwoSpines,
            policy: "originate 10.0.1.0/24 at T1; 10.0.1.0/24 => through(S1, S2) and notransit(T1, T3, T4) from T3, T4;",
            built: 13,
            graph: Drawing {
                nodes: &[
                    (0, false, None),
                    (1, false, None),
                    (2, false, None),
                    (3, false, None),
                    (1, false, None),
                    (4, false, None),
                    (5, false, Some(1)),
                    (6, false, Some(1)),
                ],
                starts: &[0],
                steps: &[
                    (0, 1),
                    (1, 2),
                    (1, 3),
                    (2, 4),
                    (2, 5),
                    (3, 4),
                    (3, 5),
                    (4, 2),
                    (4, 3),
                    (5, 2),
                    (5, 3),
                    (5, 6),
                    (5, 7),
                ],
            },
        },
        6 => Row {
            name: "two origins: no path goes over one, so the first has no node",
            network: Network::Chain,
            policy: "originate 10.0.5.0/24 at D, X; 10.0.5.0/24 => end(D >> X);",
            built: 1,
            graph: Drawing {
                nodes: &[(1, false, None), (2, false, Some(2))],
                starts: &[0],
                steps: &[(0, 1)],
            },
        },
        7 => Row {
            name: "the peer at the entry hears, and the other one is pruned",
            network: Network::TwoExits,
            policy: "originate 10.0.1.0/24 at R2; 10.0.1.0/24 => enter(R1);",
            built: 3,
            graph: Drawing {
                nodes: &[(1, false, None), (0, false, None), (2, true, Some(1))],
                starts: &[0],
                steps: &[(0, 1), (1, 2)],
            },
        },
        _ => return None,
    })
}

// Whether the first of these cases has a row's graph where there is just room for what is built of it.
fn is_first_graph(alloc: Global, net: &Net, policy: &Policy, cases: &CaseList, row: &Row) -> bool
    requires cases { cases.now.cases ≡ case_list net.now (policy_of policy.now) }
    requires routers { OriginsAreRouters net.now policy.now.origins }
{
    if cases.cases.as_slice().is_empty() {
        return false;
    }
    match case_graph(alloc, net, policy, cases, 1, row.built) {
        Ok(given) => given.used == row.built && is_drawn(&given.graph, &row.graph),
        Err(_) => false,
    }
}

// Whether the first case of a policy has a row's graph.
fn has_graph(alloc: Global, net: &Net, policy: &Policy, row: &Row) -> bool
    requires { OriginsAreRouters net.now policy.now.origins }
{
    match cases(alloc, net, policy) {
        Ok(cases) => is_first_graph(alloc, net, policy, &cases, row),
        Err(_) => false,
    }
}

// Whether the texts of a row are read, and their first case has its graph.
fn is_right(alloc: Global, row: &Row) -> bool {
    match read(alloc, row.network, row.policy) {
        Some((net, policy)) => has_graph(alloc, &net, &policy, row),
        None => false,
    }
}

/// The first row whose graph is another one.
pub fn wrong_graph(alloc: Global) -> Option<Wrong> {
    for number in 0..100 {
        let row = nth_row(number)?;
        if !is_right(alloc, &row) {
            return Some((row.name, number));
        }
    }
    Some(("a table that doesn't end", 100))
}
