//! Whether two configurations are of the same routers, with the same neighbours.
ghost use Rattle.std.specs.Prelude.{◌≡◌, ◌==◌, ◌&&◌};
ghost use Rattle.std.specs.Str.{bytes_eq};
ghost use Rattle.stage_check.specs.Unlike.{
  first_unlike as first_unlike_of,
  same_kind as is_same_kind,
  same_neighbour as is_same_neighbour,
  same_neighbours as are_same_neighbours,
  same_numbers as are_same_numbers,
  same_router as is_same_router,
};

use config_base::{RouterConfig, Session};
use net_base::Name;

// Whether both are peers, or none is.
fn same_kind(a: bool, b: bool) -> bool
    ensures { result ≡ is_same_kind a b }
{
    if a { b } else { !b }
}

// Whether two names are the same.
fn same_name(a: Name, b: Name) -> bool
    ensures { result ≡ bytes_eq a b }
{
    a == b
}

// Whether two neighbours have the same AS number, and are of the same kind.
fn same_end(a: &Session, b: &Session) -> bool
    ensures { result ≡ (a.now.asn == b.now.asn && is_same_kind a.now.peer b.now.peer) }
{
    a.asn == b.asn && same_kind(a.peer, b.peer)
}

// Whether two blocks are of the same neighbour.
fn same_neighbour(a: &Session, b: &Session) -> bool
    ensures { result ≡ is_same_neighbour a.now b.now }
{
    same_name(a.name, b.name) && same_end(a, b)
}

// Whether blocks are of the same neighbours, in the same order.
fn same_neighbours(a: &[Session], b: &[Session]) -> bool
    ensures { result ≡ are_same_neighbours a.now b.now }
{
    if a.len() != b.len() {
        return false;
    }
    for i in 0..a.len() {
        if !same_neighbour(&a[i], &b[i]) {
            return false;
        }
    }
    true
}

// Whether two routers have the same AS number and the same identifier.
fn same_identity(a: &RouterConfig, b: &RouterConfig) -> bool
    ensures { result ≡ (a.now.asn == b.now.asn && a.now.id == b.now.id) }
{
    a.asn == b.asn && a.id == b.id
}

// Whether two blocks are of the same router, whatever its neighbours are.
fn same_numbers(a: &RouterConfig, b: &RouterConfig) -> bool
    ensures { result ≡ are_same_numbers a.now b.now }
{
    same_name(a.name, b.name) && same_identity(a, b)
}

// Whether two blocks are of the same router, with the same neighbours.
fn same_router(a: &RouterConfig, b: &RouterConfig) -> bool
    ensures { result ≡ is_same_router a.now b.now }
{
    same_numbers(a, b) && same_neighbours(a.sessions.as_slice(), b.sessions.as_slice())
}

/// The number, from 1, of the first router that isn't the same in both, or that only one of them has.
pub fn first_unlike(old: &[RouterConfig], new: &[RouterConfig]) -> Option<usize>
    ensures { result ≡ first_unlike_of old.now new.now }
{
    let count = old.len().min(new.len());
    for i in 0..count {
        if !same_router(&old[i], &new[i]) {
            return Some(i + 1);
        }
    }
    if old.len() == new.len() {
        None
    } else {
        Some(count + 1)
    }
}
