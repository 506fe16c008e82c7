//! For whom something is so. Each `push_` function adds a text to the end of another.
ghost use Rattle.std.specs.Prelude.{◌≡◌, ◌++◌, ◌&&◌, ◌<◌, [], ℕ, None, IfOk, OnOk, filter, not};
ghost use Rattle.indexmap.specs.IndexSet.{contains};
ghost use Rattle.policy_base.specs.Governing.{is_origin_by};
ghost use Rattle.compare_base.specs.Cases.{is_place as is_place_of};
ghost use Rattle.compare_base.specs.declared.rows.Place.{Place as PlainPlace};
ghost use Rattle.compare_base.specs.Same.{same_place};
ghost use Rattle.compare_report.specs.Groups.{seen};
ghost use Rattle.compare_lines.specs.Lists.{routers_line};
ghost use Rattle.compare_lines.specs.Lists.{sessions_of as sessions_in};
ghost use Rattle.compare_report.specs.Kinds.{have_sessions as have_sessions_in, is_carrier, is_one, is_router_place as is_router_place_in, place_lines, router_place, router_places as router_places_in, session_place, sessions_line};

use crate::carriers::{Carrying, carrier_set};
use crate::groups::is_originated;
use crate::kinds::place_set;
use compare_base::{CasePair, Kind, Place};
use compare_lines::{RouterParts, push_routers, push_sessions, routers_of, sessions_of};
use comparison::ComparedPair;
use indexmap::IndexSet;
use input_output::NoMemory;
use net_base::{Loc, LocSet, Net};
use std::alloc::{AllocError, Global};

// Whether a location is among these origins, or is a peer where they are all peers.
fn is_origin(net: &Net, origins: Option<LocSet>, at: Loc) -> bool
    ensures { result ≡ is_origin_by net.now origins at }
{
    match origins {
        None => net.is_peer(at),
        Some(set) => set.holds(at),
    }
}

// Whether a router is a place of a pair: it is an origin in neither policy.
fn is_place(net: &Net, cases: &CasePair, router: Loc) -> bool
    ensures { result ≡ is_place_of net.now cases.now router None }
{
    net.is_router(router)
        && !is_origin(net, cases.old.origins, router)
        && !is_origin(net, cases.new.origins, router)
}

// Whether a router is a place of one of these pairs.
#[tactic(auto, using(crate::proofs::Borrowed::seen_next, crate::proofs::Borrowed::seen_push))]
fn is_router_place(net: &Net, group: &[&ComparedPair], router: Loc) -> bool
    ensures { result ≡ is_router_place_in net.now (seen group.now) router }
{
    for pair in group {
        if is_place(net, &pair.pair.cases, router) {
            return true;
        }
    }
    false
}

// Whether the sessions are places of one of these pairs.
#[tactic(auto, using(crate::proofs::Borrowed::seen_next, crate::proofs::Borrowed::seen_push))]
fn have_sessions(group: &[&ComparedPair]) -> bool
    ensures { result ≡ have_sessions_in (seen group.now) }
{
    for pair in group {
        if is_originated(&pair.pair.cases) {
            return true;
        }
    }
    false
}

// The routers that are places of these pairs.
fn router_places(alloc: Global, net: &Net, group: &[&ComparedPair]) -> Result<Vec<Loc>, AllocError>
    ensures { IfOk result (λ places. places.items ≡ router_places_in net.now (seen group.now)) }
{
    let routers = routers_of(alloc, net)?;
    let mut places = Vec::new(alloc);
    for router in &routers {
        if is_router_place(net, group, *router) {
            places.push(*router)?;
        }
    }
    Ok(places)
}

// Whether the set of the places of these pairs that differ in this way has this one.
fn differs_at(
    group: &[&ComparedPair],
    kind: &Kind,
    set: &IndexSet<Place>,
    router: Loc,
    peer: Option<Loc>,
) -> bool
    requires { (q : PlainPlace) → contains same_place set.now q ≡ is_one kind.now (seen group.now) q }
    ensures { result ≡ is_one kind.now (seen group.now) (record { router = router; peer = peer }) }
{
    set.contains(&Place { router, peer })
}

// Those of some routers that differ in this way.
fn these_routers(
    alloc: Global,
    group: &[&ComparedPair],
    kind: &Kind,
    set: &IndexSet<Place>,
    places: &[Loc],
) -> Result<Vec<Loc>, AllocError>
    requires { (q : PlainPlace) → contains same_place set.now q ≡ is_one kind.now (seen group.now) q }
    ensures { IfOk result (λ list. list.items ≡ filter (λ r. is_one kind.now (seen group.now) (router_place r)) places.now) }
{
    let mut list = Vec::new(alloc);
    for router in places {
        if differs_at(group, kind, set, *router, None) {
            list.push(*router)?;
        }
    }
    Ok(list)
}

// Those of some routers that don't differ in this way.
fn other_routers(
    alloc: Global,
    group: &[&ComparedPair],
    kind: &Kind,
    set: &IndexSet<Place>,
    places: &[Loc],
) -> Result<Vec<Loc>, AllocError>
    requires { (q : PlainPlace) → contains same_place set.now q ≡ is_one kind.now (seen group.now) q }
    ensures { IfOk result (λ list. list.items ≡ filter (λ r. not (is_one kind.now (seen group.now) (router_place r))) places.now) }
{
    let mut list = Vec::new(alloc);
    for router in places {
        if !differs_at(group, kind, set, *router, None) {
            list.push(*router)?;
        }
    }
    Ok(list)
}

// Whether the set of the routers of these pairs that carry in one policy alone has this one.
fn carries(group: &[&ComparedPair], which: Carrying, set: &IndexSet<Place>, router: Loc) -> bool
    requires { (r : ℕ) → contains same_place set.now (router_place r) ≡ is_carrier which (seen group.now) r }
    ensures { result ≡ is_carrier which (seen group.now) router }
{
    set.contains(&Place { router, peer: None })
}

// Those of some routers that carry in one policy alone.
fn these_carriers(
    alloc: Global,
    group: &[&ComparedPair],
    which: Carrying,
    set: &IndexSet<Place>,
    places: &[Loc],
) -> Result<Vec<Loc>, AllocError>
    requires { (r : ℕ) → contains same_place set.now (router_place r) ≡ is_carrier which (seen group.now) r }
    ensures { IfOk result (λ list. list.items ≡ filter (is_carrier which (seen group.now)) places.now) }
{
    let mut list = Vec::new(alloc);
    for router in places {
        if carries(group, which, set, *router) {
            list.push(*router)?;
        }
    }
    Ok(list)
}

// Those of some routers that don't.
fn other_carriers(
    alloc: Global,
    group: &[&ComparedPair],
    which: Carrying,
    set: &IndexSet<Place>,
    places: &[Loc],
) -> Result<Vec<Loc>, AllocError>
    requires { (r : ℕ) → contains same_place set.now (router_place r) ≡ is_carrier which (seen group.now) r }
    ensures { IfOk result (λ list. list.items ≡ filter (λ r. not (is_carrier which (seen group.now) r)) places.now) }
{
    let mut list = Vec::new(alloc);
    for router in places {
        if !carries(group, which, set, *router) {
            list.push(*router)?;
        }
    }
    Ok(list)
}

// The routers that are places of these pairs: those that carry in one policy alone, and the others.
fn carriers_of(
    alloc: Global,
    net: &Net,
    group: &[&ComparedPair],
    which: Carrying,
) -> Result<RouterParts, NoMemory>
    ensures these { IfOk result (λ p. p.these.items ≡ filter (is_carrier which (seen group.now)) (router_places_in net.now (seen group.now))) }
    ensures others { IfOk result (λ p. p.others.items ≡ filter (λ r. not (is_carrier which (seen group.now) r)) (router_places_in net.now (seen group.now))) }
{
    let set = carrier_set(alloc, group, which)?;
    let places = router_places(alloc, net, group)?;
    let these = these_carriers(alloc, group, which, &set, &places)?;
    let others = other_carriers(alloc, group, which, &set, &places)?;
    Ok(RouterParts { these, others })
}

/// Adds the line of the routers that carry in one policy alone, of those that are places of these pairs.
pub fn push_carrier_places(
    alloc: Global,
    text: &mut Vec<u8>,
    net: &Net,
    group: &[&ComparedPair],
    which: Carrying,
) -> Result<(), NoMemory>
    ensures { OnOk result (text.new.items ≡ text.old.items ++ routers_line net.now [] (is_carrier which (seen group.now)) (router_places_in net.now (seen group.now))) }
{
    let parts = carriers_of(alloc, net, group, which)?;
    push_routers(text, net, b"", &parts.these, &parts.others)
}

// Sessions of which something is so, and the others, in order.
#[derive(Drop)]
struct SessionParts {
    these: Vec<(Loc, Loc)>,
    others: Vec<(Loc, Loc)>,
}

// Those of some sessions that differ in this way.
fn these_sessions(
    alloc: Global,
    group: &[&ComparedPair],
    kind: &Kind,
    set: &IndexSet<Place>,
    sessions: &[(Loc, Loc)],
) -> Result<Vec<(Loc, Loc)>, AllocError>
    requires { (q : PlainPlace) → contains same_place set.now q ≡ is_one kind.now (seen group.now) q }
    ensures { IfOk result (λ list. list.items ≡ filter (λ s. is_one kind.now (seen group.now) (session_place s)) sessions.now) }
{
    let mut list = Vec::new(alloc);
    for session in sessions {
        if differs_at(group, kind, set, session.0, Some(session.1)) {
            list.push(*session)?;
        }
    }
    Ok(list)
}

// Those of some sessions that don't.
fn other_sessions(
    alloc: Global,
    group: &[&ComparedPair],
    kind: &Kind,
    set: &IndexSet<Place>,
    sessions: &[(Loc, Loc)],
) -> Result<Vec<(Loc, Loc)>, AllocError>
    requires { (q : PlainPlace) → contains same_place set.now q ≡ is_one kind.now (seen group.now) q }
    ensures { IfOk result (λ list. list.items ≡ filter (λ s. not (is_one kind.now (seen group.now) (session_place s))) sessions.now) }
{
    let mut list = Vec::new(alloc);
    for session in sessions {
        if !differs_at(group, kind, set, session.0, Some(session.1)) {
            list.push(*session)?;
        }
    }
    Ok(list)
}

// The sessions of the network that differ in this way, and the others.
fn sessions_parted(
    alloc: Global,
    net: &Net,
    group: &[&ComparedPair],
    kind: &Kind,
    set: &IndexSet<Place>,
) -> Result<SessionParts, AllocError>
    requires { (q : PlainPlace) → contains same_place set.now q ≡ is_one kind.now (seen group.now) q }
    ensures these { IfOk result (λ p. p.these.items ≡ filter (λ s. is_one kind.now (seen group.now) (session_place s)) (sessions_in net.now)) }
    ensures others { IfOk result (λ p. p.others.items ≡ filter (λ s. not (is_one kind.now (seen group.now) (session_place s))) (sessions_in net.now)) }
{
    let sessions = sessions_of(alloc, net)?;
    let these = these_sessions(alloc, group, kind, set, sessions.as_slice())?;
    let others = other_sessions(alloc, group, kind, set, sessions.as_slice())?;
    Ok(SessionParts { these, others })
}

// Adds the line of the sessions that differ in this way, where the sessions are places of these pairs.
fn push_differing_sessions(
    alloc: Global,
    text: &mut Vec<u8>,
    net: &Net,
    group: &[&ComparedPair],
    kind: &Kind,
    set: &IndexSet<Place>,
) -> Result<(), NoMemory>
    requires { (q : PlainPlace) → contains same_place set.now q ≡ is_one kind.now (seen group.now) q }
    ensures { OnOk result (text.new.items ≡ text.old.items ++ sessions_line net.now (λ s. is_one kind.now (seen group.now) (session_place s))) }
{
    let parts = sessions_parted(alloc, net, group, kind, set)?;
    push_sessions(text, net, &parts.these, &parts.others)
}

// The routers that are places of these pairs: those that differ in this way, and the others.
fn routers_parted(
    alloc: Global,
    net: &Net,
    group: &[&ComparedPair],
    kind: &Kind,
    set: &IndexSet<Place>,
) -> Result<RouterParts, AllocError>
    requires { (q : PlainPlace) → contains same_place set.now q ≡ is_one kind.now (seen group.now) q }
    ensures these { IfOk result (λ p. p.these.items ≡ filter (λ r. is_one kind.now (seen group.now) (router_place r)) (router_places_in net.now (seen group.now))) }
    ensures others { IfOk result (λ p. p.others.items ≡ filter (λ r. not (is_one kind.now (seen group.now) (router_place r))) (router_places_in net.now (seen group.now))) }
{
    let places = router_places(alloc, net, group)?;
    let these = these_routers(alloc, group, kind, set, &places)?;
    let others = other_routers(alloc, group, kind, set, &places)?;
    Ok(RouterParts { these, others })
}

/// Adds the lines of the routers and the sessions of these pairs that differ in this way.
pub fn push_places(
    alloc: Global,
    text: &mut Vec<u8>,
    net: &Net,
    group: &[&ComparedPair],
    kind: &Kind,
) -> Result<(), NoMemory>
    ensures { OnOk result (text.new.items ≡ text.old.items ++ place_lines net.now kind.now (seen group.now)) }
{
    let set = place_set(alloc, group, kind)?;
    let parts = routers_parted(alloc, net, group, kind, &set)?;
    push_routers(text, net, b"", &parts.these, &parts.others)?;
    if have_sessions(group) {
        push_differing_sessions(alloc, text, net, group, kind, &set)
    } else {
        Ok(())
    }
}
