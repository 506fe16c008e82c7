//! Walks of a network.
ghost use Rattle.std.specs.Prelude.{◌≡◌};
ghost use Rattle.policy_base.specs.Walks.{steps_linked, is_walk as walk, is_loop_free as loop_free};

use crate::meaning::{after_first, front, has_peer};
use net_base::{Loc, Net};

// Whether each location is linked to the next one.
fn is_linked(path: &[Loc], net: &Net) -> bool
    ensures { result ≡ steps_linked net.now path.now }
{
    for i in 1..path.len() {
        if !net.linked(path[i - 1], path[i]) {
            return false;
        }
    }
    true
}

/// Whether a path is a walk: at least two locations, each linked to the next, and no peer but at the ends.
pub fn is_walk(path: &[Loc], net: &Net) -> bool
    ensures { result ≡ walk net.now path.now }
{
    path.len() >= 2 && is_linked(path, net) && !has_peer(net, front(after_first(path)))
}

/// Whether no location stands twice in a path. A route whose AS_PATH holds the local AS is excluded
/// (RFC 4271, 9.1.2), so no used path has a loop.
pub fn is_loop_free(path: &[Loc]) -> bool
    ensures { result ≡ loop_free path.now }
{
    for i in 0..path.len() {
        if path[i + 1..].contains(&path[i]) {
            return false;
        }
    }
    true
}
