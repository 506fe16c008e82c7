//! The locations to which each location is linked.
ghost use Rattle.std.specs.Prelude.{◌≡◌, ◌<◌, ◌+◌, ◌||◌, ◌&&◌, ◌==◌, ℕ, IfOk, length, vec_len};
ghost use Rattle.net_base.specs.Network.{linked};
ghost use Rattle.net_base.specs.declared.limits.TheConstants.{LOCATIONS};
ghost use Rattle.location_names.specs.Neighbours.{is_held};

use net_base::{Loc, LocSet, Net};
use std::alloc::{AllocError, Global};

// Puts a location into the set of another.
fn put(sets: &mut [LocSet], at: Loc, neighbour: Loc)
    requires at { at < length sets.old }
    requires neighbour { neighbour < LOCATIONS }
    ensures len { length sets.new ≡ length sets.old }
    ensures sets { (x l : ℕ) → is_held sets.new x l ≡ (is_held sets.old x l || (x == at && l == neighbour)) }
{
    sets[at.number() as usize].insert(neighbour);
}

/// The locations to which each location is linked, a set for each location.
pub fn neighbour_sets(alloc: Global, net: &Net) -> Result<Vec<LocSet>, AllocError>
    ensures len { IfOk result (λ sets. vec_len sets ≡ length net.now.routers + length net.now.peers) }
    ensures sets { IfOk result (λ sets. (x l : ℕ) → is_held sets.items x l ≡ linked net.now x l) }
{
    let mut sets = vec![in alloc; LocSet::new(); net.routers().len() + net.peers().len()]?;
    for link in net.links() {
        put(&mut sets, link.0, link.1);
        put(&mut sets, link.1, link.0);
    }
    Ok(sets)
}

/// Whether a location's set has another. A location that has no set is linked to none.
pub fn is_near(sets: &[LocSet], at: Loc, other: Loc) -> bool
    ensures { result ≡ is_held sets.now at other }
{
    match sets.get(at.number() as usize) {
        Some(near) => near.holds(other),
        None => false,
    }
}
