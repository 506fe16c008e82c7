//! How all routers and sessions stand in one case.
ghost use Rattle.std.specs.Prelude.{◌≡◌, IfOk, length, map};
ghost use Rattle.net_base.specs.Locations.{numbers_below};
ghost use Rattle.promises_report.specs.Places.{sessions_of};
ghost use Rattle.promises_report.specs.Standings.{
  as_origin as as_origin_in,
  as_session as as_session_in,
  as_source as as_source_in,
  session_row,
};
ghost use Rattle.promises_report.specs.Telling.{promises_in};

use crate::Told;
use crate::standing::Standing;
use input_output::NoMemory;
use net_base::{List, Loc, Net};
use policy_base::Case;
use std::alloc::Global;

// How a router stands as a source; none where it's an origin.
#[tactic(auto, unfolding(crate::specs::Standings::as_source))]
fn as_source(case: &Case, told: &Told<'_>, router: Loc) -> Option<Standing>
    ensures { result ≡ as_source_in case.now (promises_in told.now) router }
{
    if case.origins.holds(router) {
        return None;
    }
    Some(Standing::new(told.rank(router, None), told.passes(router)))
}

// How a router stands as an origin; none where it isn't one.
#[tactic(auto, unfolding(crate::specs::Standings::as_origin))]
fn as_origin(case: &Case, told: &Told<'_>, router: Loc) -> Option<Standing>
    ensures { result ≡ as_origin_in case.now (promises_in told.now) router }
{
    if !case.origins.holds(router) {
        return None;
    }
    Some(Standing::of_origin(told.passes(router)))
}

// How a session stands.
#[tactic(auto, unfolding(crate::specs::Standings::as_session))]
fn as_session(told: &Told<'_>, session: (Loc, Loc)) -> Option<Standing>
    ensures { result ≡ as_session_in (promises_in told.now) session }
{
    Some(Standing::new(told.rank(session.0, Some(session.1)), false))
}

/// How each router stands as a source, by location.
pub fn sources(
    alloc: Global,
    net: &Net,
    case: &Case,
    told: &Told<'_>,
) -> Result<List<Option<Standing>>, NoMemory>
    ensures { IfOk result (λ list. list ≡ map (as_source_in case.now (promises_in told.now)) (numbers_below (length net.now.routers))) }
{
    let mut list = List::new(alloc);
    for place in 0..net.routers().len() {
        list.push(as_source(case, told, Loc::new(place as u16)))?;
    }
    Ok(list)
}

/// How each router stands as an origin, by location.
pub fn origins(
    alloc: Global,
    net: &Net,
    case: &Case,
    told: &Told<'_>,
) -> Result<List<Option<Standing>>, NoMemory>
    ensures { IfOk result (λ list. list ≡ map (as_origin_in case.now (promises_in told.now)) (numbers_below (length net.now.routers))) }
{
    let mut list = List::new(alloc);
    for place in 0..net.routers().len() {
        list.push(as_origin(case, told, Loc::new(place as u16)))?;
    }
    Ok(list)
}

// How each of these sessions stands.
fn all_sessions(
    alloc: Global,
    told: &Told<'_>,
    sessions: &[(Loc, Loc)],
) -> Result<List<Option<Standing>>, NoMemory>
    ensures { IfOk result (λ list. list ≡ map (as_session_in (promises_in told.now)) sessions.now) }
{
    let mut list = List::new(alloc);
    for session in sessions {
        list.push(as_session(told, *session))?;
    }
    Ok(list)
}

/// How each session stands, where the origins are routers.
pub fn sessions_in(
    alloc: Global,
    net: &Net,
    case: &Case,
    told: &Told<'_>,
    sessions: &[(Loc, Loc)],
) -> Result<List<Option<Standing>>, NoMemory>
    requires { sessions.now ≡ sessions_of net.now }
    ensures { IfOk result (λ list. list ≡ session_row net.now case.now (promises_in told.now)) }
{
    if case.external {
        return Ok(List::new(alloc));
    }
    all_sessions(alloc, told, sessions)
}
