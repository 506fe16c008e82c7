//! The multipath sets.
ghost use Rattle.std.specs.Prelude.{◌≡◌, ◌<◌, ◌||◌, ◌&&◌, ◌==◌, ℕ, IfOk, length, option_map};
ghost use Rattle.net_base.specs.declared.limits.TheConstants.{LOCATIONS};
ghost use Rattle.net_base.specs.Network.{linked};
ghost use Rattle.location_names.specs.Neighbours.{is_held};
ghost use Rattle.scenarios.specs.Readings.{route_of};
ghost use Rattle.scenarios.specs.Situations.{IsSituation};
ghost use Rattle.multipath_report.specs.Members.{member_in, ties};

use config_base::Route;
use net_base::{Loc, LocSet};
use scenarios::{Imported, Situation};
use std::alloc::{AllocError, Global};

// Whether what a location is given ties with the route that it holds, in preference and in the number of AS numbers.
fn is_tie(imported: &Imported<'_>, at: Loc, held: &Route) -> bool
    ensures { result ≡ ties (route_of at imported.now) held.now }
{
    imported.pref == held.pref && imported.path.len() + 1 == held.path.as_slice().len()
}

/// Whether a neighbour is in the multipath set of a location: the location is a router and no origin, holds a route, and the neighbour gives it one
/// that ties with it.
pub fn is_member(situation: &Situation<'_>, at: Loc, next: Loc) -> bool
    requires { IsSituation situation.now }
    ensures { result ≡ member_in situation.now at next }
{
    if !situation.net.is_router(at) || situation.is_origin(at) {
        return false;
    }
    match (situation.outcome.route_at(at), situation.given(&next, at)) {
        (Some(held), Some(imported)) => is_tie(&imported, at, held),
        _ => false,
    }
}

// Puts a neighbour into the set of a location.
fn put(sets: &mut [LocSet], at: Loc, next: Loc)
    requires at { at < length sets.old }
    requires next { next < LOCATIONS }
    ensures len { length sets.new ≡ length sets.old }
    ensures sets { (x l : ℕ) → is_held sets.new x l ≡ (is_held sets.old x l || (x == at && l == next)) }
{
    sets[at.number() as usize].insert(next);
}

// Puts a neighbour into the set of a location, where it belongs to it.
fn put_member(sets: &mut [LocSet], situation: &Situation<'_>, at: Loc, next: Loc)
    requires situation { IsSituation situation.now }
    requires at { at < length sets.old }
    requires next { next < LOCATIONS }
    ensures len { length sets.new ≡ length sets.old }
    ensures sets { (x l : ℕ) → is_held sets.new x l ≡ (is_held sets.old x l || (x == at && l == next && member_in situation.now at next)) }
{
    if is_member(situation, at, next) {
        put(sets, at, next);
    }
}

/// The multipath sets of all locations, by location. Those of peers and of origins are empty.
pub(crate) fn member_sets(
    alloc: Global,
    situation: &Situation<'_>,
) -> Result<Vec<LocSet>, AllocError>
    requires { IsSituation situation.now }
    ensures { IfOk result (λ sets. (r z : ℕ) → is_held sets.items r z ≡ (linked situation.now.net.now r z && member_in situation.now r z)) }
{
    let net = situation.net;
    let mut sets = vec![in alloc; LocSet::new(); net.routers().len() + net.peers().len()]?;
    for link in net.links() {
        put_member(&mut sets, situation, link.0, link.1);
        put_member(&mut sets, situation, link.1, link.0);
    }
    Ok(sets)
}
