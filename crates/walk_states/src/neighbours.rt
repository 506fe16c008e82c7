//! Where walks go on from each location, as far as the network and the case tell.
ghost use Rattle.std.specs.Prelude.{◌≡◌, ◌<◌, ◌++◌, ◌&&◌, [], ℕ, map, OnOk, IfOk, vec_len};
ghost use Rattle.net_base.specs.Locations.{in_order};
ghost use Rattle.walk_states.specs.Growth.{may_enter as is_entered, sends_on as is_sending, way_between, ways, ways_in};

use input_output::NoMemory;
use net_base::{Loc, Net};
use policy_base::Case;
use smallvec::SmallVec;
use std::alloc::Global;

/// The numbers of the locations to which walks go on from one location. A few take no memory of their own, since a network has
/// many routers with few neighbours.
pub(crate) type Ways = SmallVec<u16, 12>;

// Whether a walk may enter a location.
fn may_enter(net: &Net, case: &Case, at: Loc) -> bool
    ensures { result ≡ is_entered net.now case.now at }
{
    !case.origins.holds(at) && (net.is_router(at) || !case.external)
}

// Whether walks go on from a location: from origins and routers.
fn sends_on(net: &Net, case: &Case, at: Loc) -> bool
    ensures { result ≡ is_sending net.now case.now at }
{
    // Most are routers, and these are told by their number alone.
    net.is_router(at) || case.origins.holds(at)
}

// Whether walks go on from one location and may enter another.
fn is_way(net: &Net, case: &Case, from: Loc, to: Loc) -> bool
    ensures { result ≡ (is_sending net.now case.now from && is_entered net.now case.now to) }
{
    sends_on(net, case, from) && may_enter(net, case, to)
}

// Adds a way from one location to another, where walks go on from the one and may enter the other.
fn add_way(ways: &mut Vec<Ways>, net: &Net, case: &Case, from: Loc, to: Loc) -> Result<(), NoMemory>
    requires within { from < vec_len ways.old }
    ensures added { OnOk result ((at : ℕ) → ways_in (map (λ v. v.items) ways.new.items) at ≡ ways_in (map (λ v. v.items) ways.old.items) at ++ way_between net.now case.now from to at) }
    ensures len { vec_len ways.new ≡ vec_len ways.old }
{
    if is_way(net, case, from, to) {
        ways[from.number() as usize].push(to.number())?;
    }
    Ok(())
}

// No way from any of so many locations.
fn no_ways(alloc: Global, count: usize) -> Result<Vec<Ways>, NoMemory>
    ensures none { IfOk result (λ r. (at : ℕ) → ways_in (map (λ v. v.items) r.items) at ≡ []) }
    ensures len { IfOk result (λ r. vec_len r ≡ count) }
{
    let mut ways = Vec::with_capacity(alloc, count)?;
    for _ in 0..count {
        ways.push(Ways::new(alloc))?;
    }
    Ok(ways)
}

/// Where walks go on from each location of the network, in order of location.
pub(crate) fn all_ways(alloc: Global, net: &Net, case: &Case) -> Result<Vec<Ways>, NoMemory>
    ensures { IfOk result (λ r. map (λ v. v.items) r.items ≡ map (ways net.now case.now) (in_order net.now)) }
{
    let mut ways = no_ways(alloc, net.routers().len() + net.peers().len())?;
    for link in net.links() {
        add_way(&mut ways, net, case, link.0, link.1)?;
        add_way(&mut ways, net, case, link.1, link.0)?;
    }
    Ok(ways)
}
