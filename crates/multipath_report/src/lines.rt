//! The lines of routers and sessions, and of idle links. Each `push_` function adds a text to the end of another.
ghost use Rattle.std.specs.Prelude.{◌≡◌, ◌++◌, IfOk, OnOk, Some, length, option_map};
ghost use Rattle.std.specs.List.{flat_map};
ghost use Rattle.net_base.specs.Locations.{numbers_below};
ghost use Rattle.net_base.specs.Sets.{holds};
ghost use Rattle.location_names.specs.Neighbours.{is_held};
ghost use Rattle.policy_base.specs.Policies.{policy_of};
ghost use Rattle.outcome_report.specs.Claims.{sources_of};
ghost use Rattle.multipath_report.specs.Texts.{count_line, idle_line, offer_text, sends_text, state_text};
ghost use Rattle.multipath_report.specs.Told.{IsTold, net_in, router_line_in, session_line_in, shown_in, statement_for};

use crate::parts::{push_hops, push_rank, push_set};
use crate::told::Told;
use input_output::NoMemory;
use net_base::{Loc, Net};
use outcome_report::{push_next, push_source, with_front};
use scenarios::Situation;
use std::alloc::{AllocError, Global};
use text_parts::{push_bytes, push_number};

// Adds where a router sends packets that holds a route of this path.
fn push_sends(
    text: &mut Vec<u8>,
    told: &Told<'_, '_>,
    at: Loc,
    path: &[Loc],
) -> Result<(), NoMemory>
    requires { IsTold told.now }
    ensures { OnOk result
        (text.new.items ≡ text.old.items ++ sends_text (net_in told.now) (statement_for told.now) (holds told.now.claims.routers at) (is_held told.now.sets.now at) (Some path.now)) }
{
    let net = told.situation.net;
    push_rank(text, told.claims.rank_at(net, at, path))?;
    push_hops(text, path)?;
    push_set(text, net, told.sets, at)
}

// The path of the route that a router holds.
fn path_at<'a>(situation: &'a Situation<'_>, at: Loc) -> Option<&'a [Loc]>
    ensures { option_map (λ path. path.now) result ≡ (shown_in situation.now).path at }
{
    Some(situation.outcome.route_at(at)?.path.as_slice())
}

// Adds what a router has: that it is dead, an origin, without a route, or where it sends packets.
fn push_state(text: &mut Vec<u8>, told: &Told<'_, '_>, at: Loc) -> Result<(), NoMemory>
    requires { IsTold told.now }
    ensures { OnOk result
        (text.new.items
        ≡ text.old.items
        ++ state_text (net_in told.now) (policy_of told.now.situation.now.policy.now) told.now.situation.now.scenario.now.prefix (statement_for told.now) (sources_of told.now.claims)
        (shown_in told.now.situation.now) (is_held told.now.sets.now) at) }
{
    let situation = told.situation;
    if situation.is_dead(at) {
        return push_bytes(text, b" dead");
    }
    if situation.is_origin(at) {
        return push_bytes(text, b" origin");
    }
    match path_at(situation, at) {
        None => push_bytes(text, b" none"),
        Some(path) => push_sends(text, told, at, path),
    }
}

// Adds the line of a router.
#[tactic(auto, unfolding(crate::specs::Texts::router_line))]
fn push_router(text: &mut Vec<u8>, told: &Told<'_, '_>, at: Loc) -> Result<(), NoMemory>
    requires { IsTold told.now }
    ensures { OnOk result (text.new.items ≡ text.old.items ++ router_line_in told.now at) }
{
    push_bytes(text, b"router")?;
    push_next(text, told.situation.net, at)?;
    push_state(text, told, at)?;
    push_bytes(text, b"\n")
}

/// Adds the lines of the routers.
pub(crate) fn push_routers(text: &mut Vec<u8>, told: &Told<'_, '_>) -> Result<(), NoMemory>
    requires { IsTold told.now }
    ensures { OnOk result (text.new.items ≡ text.old.items ++ flat_map (router_line_in told.now) (numbers_below (length (net_in told.now).routers))) }
{
    for place in 0..told.situation.net.routers().len() {
        push_router(text, told, Loc::new(place as u16))?;
    }
    Ok(())
}

// The path that a peer is offered over the session of a router, if it is offered one. It begins with the peer.
fn offer(
    alloc: Global,
    told: &Told<'_, '_>,
    router: Loc,
    peer: Loc,
) -> Result<Option<Vec<Loc>>, AllocError>
    requires { IsTold told.now }
    ensures { IfOk result (λ offer. option_map (λ v. v.items) offer ≡ (shown_in told.now.situation.now).offer router peer) }
{
    match told.situation.offered(router, peer) {
        None => Ok(None),
        Some(path) => Ok(Some(with_front(alloc, peer, path)?)),
    }
}

// Adds the rank and the hops of a path that a peer is offered.
fn push_ranked(text: &mut Vec<u8>, told: &Told<'_, '_>, path: &[Loc]) -> Result<(), NoMemory>
    requires { IsTold told.now }
    ensures { OnOk result (text.new.items ≡ text.old.items ++ offer_text (net_in told.now) (statement_for told.now) (Some path.now)) }
{
    match told.claims.rank(told.situation.net, path) {
        None => push_bytes(text, b" none"),
        Some(rank) => {
            push_rank(text, Some(rank))?;
            push_hops(text, path)
        }
    }
}

// Adds what a peer is offered.
fn push_offer(
    text: &mut Vec<u8>,
    told: &Told<'_, '_>,
    path: &Option<Vec<Loc>>,
) -> Result<(), NoMemory>
    requires { IsTold told.now }
    ensures { OnOk result (text.new.items ≡ text.old.items ++ offer_text (net_in told.now) (statement_for told.now) (option_map (λ v. v.items) path.now)) }
{
    match path {
        None => push_bytes(text, b" none"),
        Some(path) => push_ranked(text, told, path),
    }
}

// Adds the line of a session of a router and a peer.
#[tactic(auto, unfolding(crate::specs::Texts::session_line))]
fn push_session(
    alloc: Global,
    text: &mut Vec<u8>,
    told: &Told<'_, '_>,
    session: (Loc, Loc),
) -> Result<(), NoMemory>
    requires { IsTold told.now }
    ensures { OnOk result (text.new.items ≡ text.old.items ++ session_line_in told.now session) }
{
    let (router, peer) = session;
    let path = offer(alloc, told, router, peer)?;
    push_source(text, told.situation.net, router, Some(peer))?;
    push_offer(text, told, &path)?;
    push_bytes(text, b"\n")
}

/// Adds the lines of the claimed sessions.
pub(crate) fn push_sessions(
    alloc: Global,
    text: &mut Vec<u8>,
    told: &Told<'_, '_>,
) -> Result<(), NoMemory>
    requires { IsTold told.now }
    ensures { OnOk result (text.new.items ≡ text.old.items ++ flat_map (session_line_in told.now) told.now.claims.sessions) }
{
    for session in told.claims.sessions.as_slice() {
        push_session(alloc, text, told, *session)?;
    }
    Ok(())
}

// Adds the line of an idle link.
#[tactic(auto, unfolding(crate::specs::Texts::idle_line))]
fn push_idle_link(text: &mut Vec<u8>, net: &Net, link: (Loc, Loc)) -> Result<(), NoMemory>
    ensures { OnOk result (text.new.items ≡ text.old.items ++ idle_line net.now link) }
{
    push_bytes(text, b"idle link")?;
    push_next(text, net, link.0)?;
    push_next(text, net, link.1)?;
    push_bytes(text, b"\n")
}

/// Adds the lines of the idle links.
pub(crate) fn push_idle(text: &mut Vec<u8>, net: &Net, idle: &[(Loc, Loc)]) -> Result<(), NoMemory>
    ensures { OnOk result (text.new.items ≡ text.old.items ++ flat_map (idle_line net.now) idle.now) }
{
    for link in idle {
        push_idle_link(text, net, *link)?;
    }
    Ok(())
}

/// Adds the line that counts them, and the links that live.
#[tactic(auto, unfolding(crate::specs::Texts::count_line))]
pub(crate) fn push_count(text: &mut Vec<u8>, idle: usize, live: usize) -> Result<(), NoMemory>
    ensures { OnOk result (text.new.items ≡ text.old.items ++ count_line idle live) }
{
    push_bytes(text, b"idle ")?;
    push_number(text, idle as u64)?;
    push_bytes(text, b" of ")?;
    push_number(text, live as u64)?;
    push_bytes(text, b"\n")
}
