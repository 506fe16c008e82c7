//! What the locations that were settled last offer to those that are left.
ghost use Rattle.std.specs.Prelude.{◌≡◌, ◌↔◌, ◌<◌, ◌==◌, ◌&&◌, ◌||◌, All, ℕ, Bool, IfOk, IsTrue, Some, length};
ghost use Rattle.std.specs.List.{AllByRecursion};
ghost use Rattle.net_base.specs.declared.limits.TheConstants.{LOCATIONS};
ghost use Rattle.net_base.specs.Network.{id_of};
ghost use Rattle.reach_prune.specs.Searches.{AreLists, is_among, is_listed};
ghost use Rattle.settled_graph.specs.Offers.{AreLowest, AreOfNodes, is_lower};

use bit_rows::NodeList;
use graph_base::Graph;
use input_output::NoMemory;
use net_base::limits::LOCATIONS;
use net_base::{Loc, Net};
use std::alloc::{AllocError, Global};

/// A step over which a settled location offers its route: its node, and the node to which this steps.
#[derive(Clone, Copy, Debug, PartialEq, Eq)]
pub struct Offer {
    /// The number of the node that the settled location holds.
    pub from: u32,
    /// The number of the node to which this steps, at the location that is offered the route.
    pub to: u32,
}

// The identifier of a location, 0 where the network has no such location.
fn identifier(net: &Net, at: Loc) -> u32
    ensures { result ≡ id_of net.now at }
{
    if net.is_router(at) || net.is_peer(at) {
        net.site(at).id
    } else {
        0
    }
}

// Whether the identifier of a node's location is lower than that of an offer's, or there is no offer.
fn comes_before(net: &Net, graph: &Graph, from: u32, offer: Option<Offer>) -> bool
    requires from { from < length graph.now.nodes }
    requires offer { (o : Offer) → offer ≡ Some o → o.from < length graph.now.nodes }
    ensures { result ≡ is_lower net.now graph.now from offer }
{
    match offer {
        None => true,
        Some(offer) => {
            identifier(net, graph.location(from)) < identifier(net, graph.location(offer.from))
        }
    }
}

// Whether this is the number that is wanted.
fn waits_for(wanted: Option<u32>, number: u32) -> bool
    ensures { IsTrue result ↔ (wanted ≡ Some number) }
{
    match wanted {
        Some(wanted) => wanted == number,
        None => false,
    }
}

// Takes a step for the offer at its end where the number of its node is wanted there, unless the offer that is there comes from a
// location of no higher identifier.
fn visit(
    net: &Net,
    graph: &Graph,
    numbers: &[u32],
    wanted: &[Option<u32>],
    step: Offer,
    offers: &mut Vec<Option<Offer>>,
)
    requires places { AllByRecursion (λ n. n.loc < LOCATIONS) graph.now.nodes }
    requires from { step.from < length graph.now.nodes }
    requires to { step.to < length graph.now.nodes }
    requires numbers { length numbers.now ≡ length graph.now.nodes }
    requires wanted { length wanted.now ≡ LOCATIONS }
    requires size { length offers.old.items ≡ LOCATIONS }
    requires nodes { AreOfNodes graph.now offers.old.items }
    ensures size { length offers.new.items ≡ LOCATIONS }
    ensures nodes { AreOfNodes graph.now offers.new.items }
    ensures lowest { (passes : ℕ → ℕ → Bool) → AreLowest net.now graph.now numbers.now wanted.now passes offers.old.items
        → AreLowest net.now graph.now numbers.now wanted.now (λ f t. passes f t || (step.from == f && step.to == t)) offers.new.items }
{
    let at = graph.location(step.to).number() as usize;
    if waits_for(wanted[at], numbers[step.to as usize])
        && comes_before(net, graph, step.from, offers[at])
    {
        offers[at] = Some(step);
    }
}

// Takes each step from a node.
fn visit_each(
    net: &Net,
    graph: &Graph,
    numbers: &[u32],
    wanted: &[Option<u32>],
    from: u32,
    nodes: &[u32],
    offers: &mut Vec<Option<Offer>>,
)
    requires places { AllByRecursion (λ n. n.loc < LOCATIONS) graph.now.nodes }
    requires from { from < length graph.now.nodes }
    requires to { All (λ n. n < length graph.now.nodes) nodes.now }
    requires numbers { length numbers.now ≡ length graph.now.nodes }
    requires wanted { length wanted.now ≡ LOCATIONS }
    requires size { length offers.old.items ≡ LOCATIONS }
    requires nodes { AreOfNodes graph.now offers.old.items }
    ensures size { length offers.new.items ≡ LOCATIONS }
    ensures nodes { AreOfNodes graph.now offers.new.items }
    ensures lowest { (passes : ℕ → ℕ → Bool) → AreLowest net.now graph.now numbers.now wanted.now passes offers.old.items
        → AreLowest net.now graph.now numbers.now wanted.now (λ f t. passes f t || (from == f && is_among nodes.now t)) offers.new.items }
{
    for to in nodes {
        visit(net, graph, numbers, wanted, Offer { from, to: *to }, offers);
    }
}

/// At each location the offer of the lowest identifier, of the steps from the front to nodes of the number that is wanted there.
pub fn lowest_offers(
    alloc: Global,
    net: &Net,
    graph: &Graph,
    numbers: &[u32],
    lists: &[NodeList],
    wanted: &[Option<u32>],
    front: &[u32],
) -> Result<Vec<Option<Offer>>, NoMemory>
    requires places { AllByRecursion (λ n. n.loc < LOCATIONS) graph.now.nodes }
    requires numbers { length numbers.now ≡ length graph.now.nodes }
    requires count { length lists.now ≡ length graph.now.nodes }
    requires lists { AreLists lists.now }
    requires wanted { length wanted.now ≡ LOCATIONS }
    requires front { All (λ n. n < length graph.now.nodes) front.now }
    ensures { IfOk result (λ offers. AreLowest net.now graph.now numbers.now wanted.now (λ f t. is_among front.now f && is_listed lists.now f t) offers.items) }
{
    let mut offers = vec![in alloc; None; LOCATIONS as usize]?;
    for node in front {
        visit_each(
            net,
            graph,
            numbers,
            wanted,
            *node,
            lists[*node as usize].as_slice(),
            &mut offers,
        );
    }
    Ok(offers)
}
