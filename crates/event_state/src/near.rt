//! The neighbours of each location, found once.
ghost use Rattle.std.specs.Prelude.{◌≡◌, ◌<◌, IfOk, map};
ghost use Rattle.net_base.specs.Locations.{in_order, neighbours as neighbours_in};
ghost use Rattle.net_base.specs.Network.{linked};

use net_base::{List, Loc, Net};
use std::alloc::{AllocError, Global};

// The locations to which a location is linked, in order.
fn neighbours(alloc: Global, net: &Net, at: Loc) -> Result<List<Loc>, AllocError>
    ensures { IfOk result (λ found. found ≡ neighbours_in net.now at) }
{
    let mut found = List::new(alloc);
    for number in 0..net.routers().len() + net.peers().len() {
        let other = Loc::new(number as u16);
        if net.linked(at, other) {
            found.push(other)?;
        }
    }
    Ok(found)
}

/// The neighbours of each location, in order.
pub(crate) fn all_neighbours(alloc: Global, net: &Net) -> Result<Vec<List<Loc>>, AllocError>
    ensures { IfOk result (λ all. all.items ≡ map (neighbours_in net.now) (in_order net.now)) }
{
    let mut all = Vec::new(alloc);
    for number in 0..net.routers().len() + net.peers().len() {
        all.push(neighbours(alloc, net, Loc::new(number as u16))?)?;
    }
    Ok(all)
}
