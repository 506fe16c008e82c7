//! The routers at which a node of a graph has a rank.
ghost use Rattle.std.specs.Prelude.{◌≡◌, ◌↔◌, ◌&&◌, ◌<◌, ℕ, IsTrue, is_some};
ghost use Rattle.net_base.specs.declared.limits.TheConstants.{LOCATIONS};
ghost use Rattle.net_base.specs.Network.{is_router};
ghost use Rattle.net_base.specs.Sets.{holds};
ghost use Rattle.graph_base.specs.Ranked.{IsRankedRouter};

use crate::graph::{Graph, Node};
use net_base::{LocSet, Net};

// Whether a node stands at a router and has a rank.
fn is_ranked(net: &Net, node: Node) -> bool
    ensures exact { result ≡ (is_router net.now node.loc && is_some node.rank) }
    ensures within { IsTrue result → node.loc < LOCATIONS }
{
    (node.loc.number() as usize) < net.routers().len() && node.rank.is_some()
}

/// The routers at which a node of the graph has a rank. On the graph of a case they are those that its
/// statement claims.
pub fn ranked_routers(net: &Net, graph: &Graph) -> LocSet
    ensures { (l : ℕ) → IsTrue (holds result l) ↔ IsRankedRouter net.now graph.now l }
{
    let mut set = LocSet::new();
    let nodes = graph.nodes();
    for i in 0..nodes.len() {
        let node = nodes[i];
        let place = node.loc;
        if is_ranked(net, node) {
            set.insert(place);
        }
    }
    set
}
