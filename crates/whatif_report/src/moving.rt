//! Which routers a cut moves.
ghost use Rattle.std.specs.Prelude.{◌≡◌, ◌<◌, ℕ, false, ◌&&◌, IsTrue, length, option_map};
ghost use Rattle.std.specs.List.{count_by};
ghost use Rattle.net_base.specs.Locations.{numbers_below};
ghost use Rattle.net_base.specs.Sets.{holds};
ghost use Rattle.outcome_base.specs.Outcomes.{route_at};
ghost use Rattle.scenarios.specs.Tests.{same_route as is_same};
ghost use Rattle.drain_report.specs.Uses.{IsOffRoutes};
ghost use Rattle.impact_law.specs.Cuts.{is_cut as is_cut_by};
ghost use Rattle.whatif_report.specs.Cutting.{passes_over};
ghost use Rattle.whatif_report.specs.Moves.{is_moved as is_moved_by, same_held as is_same_held};

use crate::cut::goes_over;
use config_base::Route;
use impact_law::Cut;
use net_base::{Loc, LocSet, Net, known_net};
use scenarios::Outcome;

/// Whether a router is cut.
pub(crate) fn is_cut(cut: &Cut, router: Loc) -> bool
    ensures { result ≡ is_cut_by cut.now router }
{
    match cut {
        Cut::Link(_, _) => false,
        Cut::Router(gone) => *gone == router,
    }
}

// Whether a router that isn't cut holds a route that goes over the cut.
fn passes(cut: &Cut, outcome: &Outcome, router: Loc) -> bool
    ensures { result ≡ passes_over cut.now outcome.now.routes router }
{
    if is_cut(cut, router) {
        return false;
    }
    match outcome.route_at(router) {
        None => false,
        Some(route) => goes_over(cut, route.path.as_slice()),
    }
}

/// Whether no route of a router that isn't cut goes over a cut.
pub(crate) fn is_off_routes(net: &Net, outcome: &Outcome, cut: &Cut) -> bool
    ensures { IsTrue result → IsOffRoutes net.now outcome.now.routes cut.now }
{
    for place in 0..net.routers().len() as u16 {
        if passes(cut, outcome, Loc::new(place)) {
            return false;
        }
    }
    true
}

// Whether two routes are the same.
fn same_route(g: &Route, h: &Route) -> bool
    ensures { result ≡ is_same g.now h.now }
{
    h.path.as_slice() == g.path.as_slice() && h.tag == g.tag && h.pref == g.pref
}

// Whether a router holds the same route before and after, or none both times.
fn same_held(before: Option<&Route>, after: Option<&Route>) -> bool
    ensures { result ≡ is_same_held (option_map (λ h. h.now) before.entry) (option_map (λ h. h.now) after.entry) }
{
    match (before, after) {
        (None, None) => true,
        (Some(before), Some(after)) => same_route(before, after),
        _ => false,
    }
}

// Whether a router that isn't cut holds another route after.
fn is_moved(cut: &Cut, before: &Outcome, after: &Outcome, router: Loc) -> bool
    ensures { result ≡ is_moved_by cut.now before.now.routes after.now.routes router }
{
    !is_cut(cut, router) && !same_held(before.route_at(router), after.route_at(router))
}

/// The routers that aren't cut and hold another route after.
pub(crate) fn moved_routers(net: &Net, cut: &Cut, before: &Outcome, after: &Outcome) -> LocSet
    ensures { (r : ℕ) → r < length net.now.routers → holds result r ≡ is_moved_by cut.now before.now.routes after.now.routes r }
{
    known_net(net);
    let mut moved = LocSet::new();
    for place in 0..net.routers().len() as u16 {
        let router = Loc::new(place);
        if is_moved(cut, before, after, router) {
            moved.insert(router);
        }
    }
    moved
}

/// How many routers are in a set.
pub(crate) fn count_routers(net: &Net, set: &LocSet) -> u32
    ensures { result ≡ count_by (holds set.now) (numbers_below (length net.now.routers)) }
{
    known_net(net);
    let mut count = 0;
    for place in 0..net.routers().len() as u16 {
        if set.holds(Loc::new(place)) {
            count += 1;
        }
    }
    count
}
