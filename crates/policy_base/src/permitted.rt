//! Which paths a policy permits and allows.
ghost use Rattle.std.specs.Prelude.{◌≡◌, ◌≤◌};
ghost use Rattle.std.specs.List.{list_any};
ghost use Rattle.policy_base.specs.declared.limits.TheConstants.{ALTERNATIVES};
ghost use Rattle.policy_base.specs.Policies.{policy_of, plain_statement, ranking_of};
ghost use Rattle.policy_base.specs.Meaning.{at_first, at_last, alternative_count};
ghost use Rattle.policy_base.specs.Governing.{is_origin as origin};
ghost use Rattle.policy_base.specs.Permitted.{from_holds, is_case_walk as case_walk, is_permitted as permitted, is_allowed as allowed};

use crate::governed::is_origin;
use crate::meaning::front;
use crate::policy::{FromSet, Policy, Statement};
use crate::rank::rank_of;
use crate::walk::{is_loop_free, is_walk};
use net_base::{Loc, Net, Prefix};

// Whether the last location is an origin.
fn ends_at_origin(net: &Net, policy: &Policy, prefix: Prefix, path: &[Loc]) -> bool
    ensures { result ≡ at_last (origin net.now (policy_of policy.now) prefix) path.now }
{
    match path.last() {
        None => false,
        Some(last) => is_origin(net, policy, prefix, *last),
    }
}

// Whether some location of a path is an origin of the prefix.
fn has_origin(net: &Net, policy: &Policy, prefix: Prefix, path: &[Loc]) -> bool
    ensures { result ≡ list_any (origin net.now (policy_of policy.now) prefix) path.now }
{
    path.iter().any(|at| is_origin(net, policy, prefix, *at))
}

/// Whether a path is a walk of the prefix's case: a walk whose last location is an origin and no other one.
pub fn is_case_walk(net: &Net, policy: &Policy, prefix: Prefix, path: &[Loc]) -> bool
    ensures { result ≡ case_walk net.now (policy_of policy.now) prefix path.now }
{
    is_walk(path, net)
        && ends_at_origin(net, policy, prefix, path)
        && !has_origin(net, policy, prefix, front(path))
}

impl FromSet {
    /// Whether the set has the location.
    pub fn holds(&self, at: Loc) -> bool
        ensures { result ≡ from_holds self.now at }
    {
        match self {
            FromSet::Any => true,
            FromSet::Named(set) => set.holds(at),
        }
    }
}

// Whether a path starts in a `from` set.
fn starts_within(from: &FromSet, path: &[Loc]) -> bool
    ensures { result ≡ at_first (from_holds from.now) path.now }
{
    match path {
        [] => false,
        [first, ..] => from.holds(*first),
    }
}

/// Whether a statement permits a path: it is a walk of the prefix's case that starts in the `from` set and
/// has a rank.
pub fn is_permitted(
    net: &Net,
    policy: &Policy,
    prefix: Prefix,
    statement: &Statement,
    path: &[Loc],
) -> bool
    requires { alternative_count (ranking_of statement.now.ranked) ≤ ALTERNATIVES }
    ensures { result ≡ permitted net.now (policy_of policy.now) prefix (plain_statement statement.now) path.now }
{
    is_case_walk(net, policy, prefix, path)
        && starts_within(&statement.from, path)
        && rank_of(&statement.ranked, path, net).is_some()
}

/// Whether a statement allows a path: it permits it, and the path has no loop.
pub fn is_allowed(
    net: &Net,
    policy: &Policy,
    prefix: Prefix,
    statement: &Statement,
    path: &[Loc],
) -> bool
    requires { alternative_count (ranking_of statement.now.ranked) ≤ ALTERNATIVES }
    ensures { result ≡ allowed net.now (policy_of policy.now) prefix (plain_statement statement.now) path.now }
{
    is_permitted(net, policy, prefix, statement, path) && is_loop_free(path)
}
