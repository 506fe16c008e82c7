//! The sessions of a network.
ghost use Rattle.std.specs.Prelude.{◌≡◌, IfOk};
ghost use Rattle.promises_report.specs.Places.{sessions_of as sessions_in};

use net_base::{List, Loc, Net};
use std::alloc::{AllocError, Global};

/// The sessions of routers to peers, by router and peer.
pub fn sessions_of(alloc: Global, net: &Net) -> Result<List<(Loc, Loc)>, AllocError>
    ensures { IfOk result (λ sessions. sessions ≡ sessions_in net.now) }
{
    let mut sessions = List::new(alloc);
    for link in net.links() {
        if net.is_router(link.0) && net.is_peer(link.1) {
            sessions.push(*link)?;
        }
    }
    Ok(sessions)
}
