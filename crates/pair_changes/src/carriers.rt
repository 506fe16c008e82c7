//! The routers that carry in one policy alone.
ghost use Rattle.std.specs.Prelude.{◌≡◌, ◌||◌, ◌&&◌, ◌==◌, ◌++◌, ◌∷◌, [], ℕ, IfOk, OnOk, if◌then◌else◌};
ghost use Rattle.net_base.specs.Network.{is_router};
ghost use Rattle.net_base.specs.Sets.{holds};
ghost use Rattle.graph_base.specs.Graphs.{IsGraph};
ghost use Rattle.pair_changes.specs.Carriers.{all_in_one_alone, has_node_at};

use crate::places::is_router_place;
use compare_base::CasePair;
use graph_base::Graph;
use net_base::{List, Loc, LocSet, Net, known_net};
use std::alloc::{AllocError, Global};

// Puts a location into a set, if it's a router.
fn note(routers: &mut LocSet, net: &Net, at: Loc)
    ensures { (r : ℕ) → holds routers.new r ≡ (holds routers.old r || (is_router net.now at && r == at)) }
{
    known_net(net);
    if net.is_router(at) {
        routers.insert(at);
    }
}

/// The routers at which a graph has nodes.
pub(crate) fn routers_of(net: &Net, graph: &Graph) -> LocSet
    ensures routers { (r : ℕ) → holds result r ≡ has_node_at net.now graph.now.nodes r }
    ensures rules { IsGraph graph.now }
{
    let mut routers = LocSet::new();
    for node in graph.nodes() {
        note(&mut routers, net, node.loc);
    }
    routers
}

// Puts a router behind others, if it's one that carries.
fn push_if(routers: &mut List<Loc>, is_one: bool, router: Loc) -> Result<(), AllocError>
    ensures { OnOk result (routers.new ≡ routers.old ++ (if is_one then router ∷ [] else [])) }
{
    if is_one {
        routers.push(router)?;
    }
    Ok(())
}

/// The routers of one set that the other hasn't and that are origins in neither policy, by location.
pub(crate) fn carriers_alone(
    alloc: Global,
    net: &Net,
    cases: &CasePair,
    one: &LocSet,
    other: &LocSet,
) -> Result<List<Loc>, AllocError>
    ensures { IfOk result (λ routers. routers ≡ all_in_one_alone net.now cases.now one.now other.now) }
{
    let mut routers = List::new(alloc);
    for number in 0..net.routers().len() as u16 {
        let router = Loc::new(number);
        let is_one = is_router_place(net, cases, router)
            && (one.holds(router) && !other.holds(router));
        push_if(&mut routers, is_one, router)?;
    }
    Ok(routers)
}
