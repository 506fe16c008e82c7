//! Whether each node at a claimed router has a rank.
ghost use Rattle.std.specs.Prelude.{◌≡◌, ◌&&◌, ◌<◌, false, IsSome, is_none, length};
ghost use Rattle.net_base.specs.Sets.{holds};
ghost use Rattle.policy_base.specs.declared.case.Case.{Case as PlainCase};
ghost use Rattle.policy_base.specs.Policies.{PlainStatement};
ghost use Rattle.graph_base.specs.Graphs.{IsGraph};
ghost use Rattle.graph_base.specs.Runs.{place_of, rank_at};
ghost use Rattle.evidence_law.specs.Faithful.{IsFaithful};
ghost use Rattle.evidence_law.specs.Passes.{IsClaimed};
ghost use Rattle.walk_check.specs.Firsts.{IsFirstOrNone};

use graph_base::{Graph, ranked_routers};
use net_base::{LocSet, Net};

// Whether a node is at one of these places and has no rank.
fn is_mixed(graph: &Graph, claimed: &LocSet, node: u32) -> bool
    requires { node < length graph.now.nodes }
    ensures { result ≡ (holds claimed.now (place_of graph.now node) && is_none (rank_at graph.now node)) }
{
    claimed.holds(graph.location(node)) && graph.rank(node).is_none()
}

// The first node at one of these places without a rank.
fn first_mixed(graph: &Graph, claimed: &LocSet) -> Option<u32>
    ensures rules { IsGraph graph.now }
    ensures first { IsFirstOrNone (λ n. (holds claimed.now (place_of graph.now n) && is_none (rank_at graph.now n)) ≡ false) (length graph.now.nodes) result }
{
    let size = graph.nodes().len() as u32;
    for node in 0..size {
        if is_mixed(graph, claimed, node) {
            return Some(node);
        }
    }
    None
}

/// The first node without a rank at a router that the statement of a case claims, on a faithful graph of the case. There the
/// claimed routers are those at which some node has a rank.
pub fn mixed_fault(net: &Net, graph: &Graph) -> Option<u32>
    ensures { (s : PlainStatement) (c : PlainCase) → IsFaithful net.now s (holds c.origins) c.external graph.now
        → IsFirstOrNone (λ n. IsClaimed net.now s c (place_of graph.now n) → IsSome (rank_at graph.now n)) (length graph.now.nodes) result }
{
    let claimed = ranked_routers(net, graph);
    first_mixed(graph, &claimed)
}
