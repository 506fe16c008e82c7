//! The links over which no packet goes.
ghost use Rattle.std.specs.Prelude.{◌≡◌, IfOk, filter, not};
ghost use Rattle.multipath_law.specs.Carried.{live_links as links_that_live};
ghost use Rattle.scenarios.specs.Scenarios.{failures_of};
ghost use Rattle.scenarios.specs.Situations.{IsSituation};
ghost use Rattle.multipath_report.specs.Idle.{is_used_in, offered_over};

use location_names::is_near;
use net_base::{List, Loc, LocSet};
use scenarios::Situation;
use std::alloc::{AllocError, Global};

/// The links that live.
pub(crate) fn live_links(
    alloc: Global,
    situation: &Situation<'_>,
) -> Result<List<(Loc, Loc)>, AllocError>
    requires { IsSituation situation.now }
    ensures { IfOk result (λ links. links ≡ links_that_live situation.now.net.now (failures_of situation.now.scenario.now)) }
{
    let mut links = List::new(alloc);
    for link in situation.net.links() {
        if situation.is_live(link.0, link.1) {
            links.push(*link)?;
        }
    }
    Ok(links)
}

// Whether the first end of a link, a router, offers the second, a peer, a path.
fn is_offer(situation: &Situation<'_>, link: (Loc, Loc)) -> bool
    requires { IsSituation situation.now }
    ensures { result ≡ offered_over situation.now link }
{
    situation.offered(link.0, link.1).is_some()
}

// Whether packets go over a link: one end is in the multipath set of the other, or the second end, a peer, is offered a path.
fn is_used(situation: &Situation<'_>, sets: &[LocSet], link: (Loc, Loc)) -> bool
    requires { IsSituation situation.now }
    ensures { result ≡ is_used_in situation.now sets.now link }
{
    is_near(sets, link.0, link.1) || is_near(sets, link.1, link.0) || is_offer(situation, link)
}

/// Those of some links over which no packet goes.
pub(crate) fn idle_among(
    alloc: Global,
    situation: &Situation<'_>,
    sets: &[LocSet],
    links: &[(Loc, Loc)],
) -> Result<List<(Loc, Loc)>, AllocError>
    requires { IsSituation situation.now }
    ensures { IfOk result (λ idle. idle ≡ filter (λ link. not (is_used_in situation.now sets.now link)) links.now) }
{
    let mut idle = List::new(alloc);
    for link in links {
        if !is_used(situation, sets, *link) {
            idle.push(*link)?;
        }
    }
    Ok(idle)
}
