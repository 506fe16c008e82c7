//! Settling front by front.
ghost use Rattle.std.specs.Prelude.{◌≡◌, ◌∷◌, ◌<◌, ℕ, IfOk, IsTrue, None, false, length, replicate};
ghost use Rattle.std.specs.List.{AllByRecursion};
ghost use Rattle.net_base.specs.Sets.{holds};
ghost use Rattle.net_base.specs.declared.limits.TheConstants.{LOCATIONS};
ghost use Rattle.graph_base.specs.Runs.{is_start, place_of};
ghost use Rattle.routing_law.specs.Outcome.{FullyStable, Setup};
ghost use Rattle.settled_graph.specs.Grounds.{IsGround, held_in};
ghost use Rattle.settled_graph.specs.Rounds.{AreFit, AreOpening, IsRound, taken};

use crate::best::greatest_numbers;
use crate::offers::{Offer, lowest_offers};
use crate::settled::Settled;
use graph_base::Graph;
use input_output::NoMemory;
use net_base::limits::LOCATIONS;
use net_base::{List, Loc, LocSet, Net};
use reach_prune::{Way, neighbours};
use std::alloc::{AllocError, Global};

// A path with a location in front.
fn path_from(alloc: Global, first: Loc, rest: &[Loc]) -> Result<List<Loc>, AllocError>
    ensures { IfOk result (λ path. path ≡ first ∷ rest.now) }
{
    let mut path = List::new(alloc);
    path.push(first)?;
    for place in rest {
        path.push(*place)?;
    }
    Ok(path)
}

// The route that a location takes of an offer.
fn take(
    alloc: Global,
    graph: &Graph,
    routes: &[Option<Settled>],
    at: Loc,
    offer: Offer,
) -> Result<Option<Settled>, AllocError>
    requires places { AllByRecursion (λ n. n.loc < LOCATIONS) graph.now.nodes }
    requires from { offer.from < length graph.now.nodes }
    requires size { length routes.now ≡ LOCATIONS }
    ensures { IfOk result (λ route. route ≡ taken graph.now routes.now at offer) }
{
    match &routes[graph.location(offer.from).number() as usize] {
        None => Ok(None),
        Some(giver) => Ok(Some(Settled {
            path: path_from(alloc, at, giver.path.as_slice())?,
            node: offer.to,
        })),
    }
}

// Settles each location that has an offer, and returns the nodes of these locations.
fn settle_offers(
    alloc: Global,
    graph: &Graph,
    offers: &[Option<Offer>],
    routes: &mut Vec<Option<Settled>>,
    wanted: &mut Vec<Option<u32>>,
) -> Result<Vec<u32>, AllocError>
    requires places { AllByRecursion (λ n. n.loc < LOCATIONS) graph.now.nodes }
    requires offers { length offers.now ≡ LOCATIONS }
    requires routes { length routes.old.items ≡ LOCATIONS }
    requires wanted { length wanted.old.items ≡ LOCATIONS }
    requires fit { AreFit graph.now wanted.old.items offers.now }
    ensures routes { length routes.new.items ≡ LOCATIONS }
    ensures wanted { length wanted.new.items ≡ LOCATIONS }
    ensures round { IfOk result (λ front. IsRound graph.now offers.now routes.old.items routes.new.items wanted.old.items wanted.new.items front.items) }
{
    let mut front = Vec::new(alloc);
    for place in 0..offers.len() {
        if let Some(offer) = offers[place] {
            routes[place] = take(alloc, graph, routes, Loc::new(place as u16), offer)?;
            wanted[place] = None;
            front.push(offer.to)?;
        }
    }
    Ok(front)
}

// A table in which no location has a route.
fn no_routes(alloc: Global) -> Result<Vec<Option<Settled>>, AllocError>
    ensures { IfOk result (λ routes. routes.items ≡ replicate LOCATIONS None) }
{
    let mut routes = Vec::new(alloc);
    for _ in 0..LOCATIONS {
        routes.push(None)?;
    }
    Ok(routes)
}

// The starts, each settled with the path of its location alone.
fn opening(alloc: Global, graph: &Graph) -> Result<Vec<Option<Settled>>, AllocError>
    requires { AllByRecursion (λ n. n.loc < LOCATIONS) graph.now.nodes }
    ensures { IfOk result (λ routes. AreOpening graph.now routes.items) }
{
    let mut routes = no_routes(alloc)?;
    for start in graph.starts() {
        let at = graph.location(*start);
        routes[at.number() as usize] = Some(Settled {
            path: path_from(alloc, at, &[])?,
            node: *start,
        });
    }
    Ok(routes)
}

/// Settles the part of a graph that failures leave, front by front: which route each location holds, by its number, where those that
/// choose go by the number of the node, then by the length of the path, then by the identifier of the neighbour. A start holds the path
/// of its location alone.
pub fn settle_graph(
    alloc: Global,
    net: &Net,
    graph: &Graph,
    numbers: &[u32],
    choosers: &LocSet,
) -> Result<Vec<Option<Settled>>, NoMemory>
    requires places { AllByRecursion (λ n. n.loc < LOCATIONS) graph.now.nodes }
    requires numbers { length numbers.now ≡ length graph.now.nodes }
    requires starts { (s : ℕ) → IsTrue (is_start graph.now s) → holds choosers.now (place_of graph.now s) ≡ false }
    ensures size { IfOk result (λ routes. length routes.items ≡ LOCATIONS) }
    ensures settled { IfOk result (λ routes. (w : Setup) → IsGround net.now graph.now numbers.now choosers.now w → FullyStable w (held_in routes.items)) }
{
    let lists = neighbours(alloc, graph, Way::Forward)?;
    let mut wanted = greatest_numbers(alloc, graph, numbers, choosers)?;
    let mut routes = opening(alloc, graph)?;
    let mut front = Vec::from_slice(alloc, graph.starts())?;
    'fronts: while !front.is_empty() {
        let offers = lowest_offers(alloc, net, graph, numbers, &lists, &wanted, &front)?;
        front = settle_offers(alloc, graph, &offers, &mut routes, &mut wanted)?;
    }
    Ok(routes)
}
