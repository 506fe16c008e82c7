//! The sources that a statement claims, against the nodes at them.
ghost use Rattle.std.specs.Prelude.{◌≡◌, ◌≤◌, MatchOption, None, length};
ghost use Rattle.net_base.specs.declared.limits.TheConstants.{ROUTERS};
ghost use Rattle.graph_base.specs.Least.{least_below};
ghost use Rattle.case_core.specs.Firsts.{has_both, lacks_path};
ghost use Rattle.case_core.specs.Mixed.{IsFirstMixed, IsMixedRow, IsNotMixed};
ghost use Rattle.case_core.specs.Sources.{names as names_of};

use crate::firsts::Firsts;
use net_base::{Loc, LocSet};
use policy_base::FromSet;

// Whether a `from` set names the location, and not by `any`.
fn names(from: &FromSet, at: Loc) -> bool
    ensures { result ≡ names_of from.now at }
{
    match from {
        FromSet::Any => false,
        FromSet::Named(set) => set.holds(at),
    }
}

/// The first router that the `from` set names, that is no origin, and at which no node has a rank.
pub fn without_path(from: &FromSet, origins: &LocSet, table: &[Firsts]) -> Option<Loc>
    requires { length table.now ≤ ROUTERS }
    ensures { result ≡ least_below (length table.now) (lacks_path from.now origins.now table.now) }
{
    for i in 0..table.len() {
        let at = Loc::new(i as u16);
        if names(from, at) && !origins.holds(at) && table[i].ranked.is_none() {
            return Some(at);
        }
    }
    None
}

/// A router at which a node has a rank and another one has none, with the first of each.
#[derive(Clone, Copy)]
pub struct Mixed {
    /// The router.
    pub router: Loc,
    /// The number of the first node with a rank there, from 0.
    pub ranked: u32,
    /// The number of the first node without a rank there, from 0.
    pub unranked: u32,
}

// The router with its first nodes, where there is one of each.
fn mixed_at(router: Loc, firsts: Firsts) -> Option<Mixed>
    ensures { MatchOption result (IsNotMixed firsts) (λ mixed. IsMixedRow router firsts mixed) }
{
    match (firsts.ranked, firsts.unranked) {
        (Some(ranked), Some(unranked)) => Some(Mixed {
            router,
            ranked,
            unranked,
        }),
        _ => None,
    }
}

/// The first router at which a node has a rank and another one has none.
pub fn first_mixed(table: &[Firsts]) -> Option<Mixed>
    requires { length table.now ≤ ROUTERS }
    ensures { MatchOption result (least_below (length table.now) (has_both table.now) ≡ None) (λ mixed. IsFirstMixed table.now mixed) }
{
    for i in 0..table.len() {
        if let Some(mixed) = mixed_at(Loc::new(i as u16), table[i]) {
            return Some(mixed);
        }
    }
    None
}
