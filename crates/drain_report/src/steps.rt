//! The steps of all paths.
ghost use Rattle.std.specs.Prelude.{◌≡◌, ◌++◌, IfOk, OnOk, filter, is_some, map};
ghost use Rattle.std.specs.List.{flat_map};
ghost use Rattle.drain_report.specs.Steps.{held_steps, is_offer, offer_step, steps_in, steps_of};

use net_base::{List, Loc};
use outcome_report::ReportedOutcome;
use scenarios::Outcome;
use std::alloc::{AllocError, Global};

// Adds the steps of a path.
fn push_steps(steps: &mut List<(Loc, Loc)>, path: &[Loc]) -> Result<(), AllocError>
    ensures { OnOk result (steps.new ≡ steps.old ++ steps_of path.now) }
{
    for place in 1..path.len() {
        steps.push((path[place - 1], path[place]))?;
    }
    Ok(())
}

// The steps of the paths of routes.
fn route_steps(alloc: Global, outcome: &Outcome) -> Result<List<(Loc, Loc)>, AllocError>
    ensures { IfOk result (λ steps. steps ≡ flat_map held_steps outcome.now.routes) }
{
    let mut steps = List::new(alloc);
    for held in outcome.routes.as_slice() {
        if let Some(route) = held {
            push_steps(&mut steps, route.path.as_slice())?;
        }
    }
    Ok(steps)
}

// Whether the first end of a link, a router, offers the second, a peer, something.
fn offers(situation: &ReportedOutcome<'_>, link: (Loc, Loc)) -> bool
    ensures { result ≡ is_offer situation.now link }
{
    situation.offered(link.0, link.1).is_some()
}

// Adds the first step of what each peer is offered, from the peer to the router.
fn push_offers(
    steps: &mut List<(Loc, Loc)>,
    situation: &ReportedOutcome<'_>,
) -> Result<(), AllocError>
    ensures { OnOk result (steps.new ≡ steps.old ++ map offer_step (filter (is_offer situation.now) situation.now.net.now.links)) }
{
    for link in situation.net.links() {
        if offers(situation, *link) {
            steps.push((link.1, link.0))?;
        }
    }
    Ok(())
}

/// The steps of the paths of routes, and the first step of what each peer is offered: the rest of that is the path of the router's route.
pub(crate) fn steps(
    alloc: Global,
    situation: &ReportedOutcome<'_>,
) -> Result<List<(Loc, Loc)>, AllocError>
    ensures { IfOk result (λ steps. steps ≡ steps_in situation.now) }
{
    let mut steps = route_steps(alloc, situation.outcome)?;
    push_offers(&mut steps, situation)?;
    Ok(steps)
}
