//! What nodes offer at locations.
ghost use Rattle.std.specs.Prelude.{◌≡◌, ◌<◌, ◌&&◌, ◌||◌, ◌==◌, ℕ, IfOk, OnOk, length};
ghost use Rattle.std.specs.List.{list_any};
ghost use Rattle.preference_check.specs.Offers.{is_good, is_offered, offer_by_rank, offer_by_step, offer_of_rank, offers_of};

use crate::offer_list::{OfferList, no_offers};
use graph_base::Graph;
use input_output::NoMemory;
use net_base::{Loc, LocSet};
use std::alloc::{AllocError, Global};

/// Something that a node offers at a location: the less it costs, the better.
#[derive(Clone, Copy)]
pub struct Offer {
    /// The location at which it is offered.
    pub at: Loc,
    /// A rank, or what a preference number lacks to the greatest number of 32 bits.
    pub cost: u32,
}

// What lies in the unused places of a short list.
impl Default for Offer {
    fn default() -> Offer {
        Offer {
            at: Loc::new(0),
            cost: 0,
        }
    }
}

/// Which steps count.
#[derive(Clone, Copy)]
pub enum Towards {
    /// Steps to nodes that don't hear.
    Routers,
    /// Steps to nodes that hear.
    Listeners,
}

// The offer of a node's rank at its location, where the rank counts.
fn offer_of_rank(graph: &Graph, node: u32) -> Option<Offer>
    requires { node < length graph.now.nodes }
    ensures { result ≡ offer_of_rank graph.now node }
{
    let cost = graph.rank(node)?;
    Some(Offer {
        at: graph.location(node),
        cost,
    })
}

// What a step to a node is worth.
fn offer_by_step(graph: &Graph, numbers: &[u32], towards: Towards, node: u32) -> Option<Offer>
    requires node { node < length graph.now.nodes }
    requires numbers { length numbers.now ≡ length graph.now.nodes }
    ensures { result ≡ offer_by_step graph.now numbers.now towards node }
{
    let hears = graph.hears(node);
    match towards {
        Towards::Routers if !hears => Some(Offer {
            at: graph.location(node),
            cost: u32::MAX - numbers[node as usize],
        }),
        Towards::Listeners if hears => offer_of_rank(graph, node),
        Towards::Routers | Towards::Listeners => None,
    }
}

// What a node is worth at a claimed location.
fn offer_by_rank(graph: &Graph, claimed: &LocSet, node: u32) -> Option<Offer>
    requires { node < length graph.now.nodes }
    ensures { result ≡ offer_by_rank graph.now claimed.now node }
{
    if claimed.holds(graph.location(node)) {
        offer_of_rank(graph, node)
    } else {
        None
    }
}

// Puts an offer, if there is one, behind the others of a node.
#[inline(always)]
fn put(offers: &mut Vec<OfferList>, node: u32, offer: Option<Offer>) -> Result<(), AllocError>
    requires { node < length offers.old.items }
    ensures size { length offers.new.items ≡ length offers.old.items }
    ensures offers { OnOk result
        ((n at cost : ℕ)
        → is_offered (offers_of offers.new.items n) at cost ≡ (is_offered (offers_of offers.old.items n) at cost || (node == n && is_good offer at cost))) }
{
    match offer {
        None => Ok(()),
        Some(offer) => offers[node as usize].push(offer),
    }
}

/// What each node offers by its steps: a greater number at a router costs less, and so does a lesser rank at a peer.
pub fn offers_by_steps(
    alloc: Global,
    graph: &Graph,
    numbers: &[u32],
    towards: Towards,
) -> Result<Vec<OfferList>, NoMemory>
    requires { length numbers.now ≡ length graph.now.nodes }
    ensures size { IfOk result (λ offers. length offers.items ≡ length graph.now.nodes) }
    ensures offers { IfOk result
        (λ offers. (n at cost : ℕ)
        → is_offered (offers_of offers.items n) at cost ≡ list_any (λ s. s.0 == n && is_good (offer_by_step graph.now numbers.now towards s.1) at cost) graph.now.steps) }
{
    let mut offers = no_offers(alloc, graph.nodes().len())?;
    for step in graph.steps() {
        let offer = offer_by_step(graph, numbers, towards, step.1);
        put(&mut offers, step.0, offer)?;
    }
    Ok(offers)
}

/// What each node offers by its rank at claimed locations.
pub fn offers_by_rank(
    alloc: Global,
    graph: &Graph,
    claimed: &LocSet,
) -> Result<Vec<OfferList>, NoMemory>
    ensures size { IfOk result (λ offers. length offers.items ≡ length graph.now.nodes) }
    ensures offers { IfOk result (λ offers. (n at cost : ℕ) → n < length graph.now.nodes → is_offered (offers_of offers.items n) at cost ≡ is_good (offer_by_rank graph.now claimed.now n) at cost) }
{
    let mut offers = no_offers(alloc, graph.nodes().len())?;
    for node in 0..graph.nodes().len() as u32 {
        put(&mut offers, node, offer_by_rank(graph, claimed, node))?;
    }
    Ok(offers)
}
