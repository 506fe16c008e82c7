//! The places of a pair of cases, in order.
ghost use Rattle.std.specs.Prelude.{◌≡◌, ◌++◌, ◌∷◌, [], IfOk, OnOk, None, if◌then◌else◌};
ghost use Rattle.compare_base.specs.Cases.{is_originated as is_originated_by, is_place};
ghost use Rattle.policy_base.specs.Governing.{is_origin_by};
ghost use Rattle.pair_changes.specs.Places.{ArePlaces, is_session as is_session_of, router_places, session_place as session_place_of, session_places};

use compare_base::{CasePair, Place};
use net_base::{Loc, LocSet, Net};
use std::alloc::{AllocError, Global};

// Whether a location is an origin.
fn is_origin(net: &Net, origins: Option<LocSet>, at: Loc) -> bool
    ensures { result ≡ is_origin_by net.now origins at }
{
    match origins {
        None => net.is_peer(at),
        Some(origins) => origins.holds(at),
    }
}

/// Whether a location is a router that is an origin in neither policy.
pub(crate) fn is_router_place(net: &Net, cases: &CasePair, at: Loc) -> bool
    ensures { result ≡ is_place net.now cases.now at None }
{
    net.is_router(at)
        && (!is_origin(net, cases.old.origins, at) && !is_origin(net, cases.new.origins, at))
}

// Whether an item of one of the policies originates the prefixes.
fn is_originated(cases: &CasePair) -> bool
    ensures { result ≡ is_originated_by cases.now }
{
    cases.old.origins.is_some() || cases.new.origins.is_some()
}

// Puts a place behind others, if it's one of the pair.
fn push_if(places: &mut Vec<Place>, is_one: bool, place: &Place) -> Result<(), AllocError>
    ensures { OnOk result (places.new.items ≡ places.old.items ++ (if is_one then place.now ∷ [] else [])) }
{
    if is_one {
        let Place { router, peer } = *place;
        places.push(Place { router, peer })?;
    }
    Ok(())
}

// Adds the routers, of so many, that are origins in neither policy.
fn push_routers(
    places: &mut Vec<Place>,
    net: &Net,
    cases: &CasePair,
    count: u16,
) -> Result<(), AllocError>
    ensures { OnOk result (places.new.items ≡ places.old.items ++ router_places net.now cases.now count) }
{
    for number in 0..count {
        let router = Loc::new(number);
        let is_one = is_router_place(net, cases, router);
        let place = Place { router, peer: None };
        push_if(places, is_one, &place)?;
    }
    Ok(())
}

// Whether a link is a session of a router to a peer.
fn is_session(net: &Net, link: (Loc, Loc)) -> bool
    ensures { result ≡ is_session_of net.now link }
{
    net.is_router(link.0) && net.is_peer(link.1)
}

// The place of a session.
fn session_place(link: (Loc, Loc)) -> Place
    ensures { result ≡ session_place_of link }
{
    Place {
        router: link.0,
        peer: Some(link.1),
    }
}

// Adds the sessions of routers to peers, if the prefixes are originated.
fn push_sessions(places: &mut Vec<Place>, net: &Net, cases: &CasePair) -> Result<(), AllocError>
    ensures { OnOk result (places.new.items ≡ places.old.items ++ (if is_originated_by cases.now then session_places net.now net.now.links else [])) }
{
    if !is_originated(cases) {
        return Ok(());
    }
    for link in net.links() {
        let place = session_place(*link);
        push_if(places, is_session(net, *link), &place)?;
    }
    Ok(())
}

/// The places of a pair of cases: routers by location, then sessions by router and peer.
pub(crate) fn places_of(
    alloc: Global,
    net: &Net,
    cases: &CasePair,
) -> Result<Vec<Place>, AllocError>
    ensures { IfOk result (λ places. ArePlaces net.now cases.now places.items) }
{
    let mut places = Vec::new(alloc);
    push_routers(&mut places, net, cases, net.routers().len() as u16)?;
    push_sessions(&mut places, net, cases)?;
    Ok(places)
}
