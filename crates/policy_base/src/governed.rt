//! Which statement governs a prefix, and where the prefix comes from.
ghost use Rattle.std.specs.Prelude.{◌≡◌, option_map};
ghost use Rattle.policy_base.specs.Policies.{policy_of, plain_statement};
ghost use Rattle.policy_base.specs.Governing.{some_contains, governing as governing_number, statement_of as governing_statement, originated_at, is_origin as origin};

use crate::policy::{Policy, Statement};
use net_base::{Loc, LocSet, Net, Pattern, Prefix};

// Whether some pattern contains the prefix.
fn is_in_some(patterns: &[Pattern], prefix: Prefix) -> bool
    ensures { result ≡ some_contains patterns.now prefix }
{
    patterns.iter().any(|pattern| pattern.contains(prefix))
}

/// The number, from 1, of the statement that governs a prefix: the first one of whose patterns some contains
/// it. None exactly where no statement governs it.
pub fn governing(policy: &Policy, prefix: Prefix) -> Option<u32>
    ensures { result ≡ governing_number (policy_of policy.now) prefix }
{
    let statements = policy.statements();
    for i in 0..statements.len() {
        if is_in_some(statements[i].patterns.as_slice(), prefix) {
            return Some(i as u32 + 1);
        }
    }
    None
}

/// The statement that governs a prefix.
pub fn statement_of(policy: &Policy, prefix: Prefix) -> Option<&Statement>
    ensures { option_map (λ s. plain_statement s.now) result ≡ governing_statement (policy_of policy.now) prefix }
{
    for statement in policy.statements() {
        if is_in_some(statement.patterns.as_slice(), prefix) {
            return Some(statement);
        }
    }
    None
}

/// The routers of the `originate` item that names a prefix, where there is one.
pub fn origins_of(policy: &Policy, prefix: Prefix) -> Option<LocSet>
    ensures { result ≡ originated_at policy.now.origins prefix }
{
    for origin in policy.origins() {
        if origin.prefix == prefix {
            return Some(origin.at);
        }
    }
    None
}

/// Whether a location is an origin of a prefix: one of the routers of its `originate` item or, where it has
/// none, a peer.
pub fn is_origin(net: &Net, policy: &Policy, prefix: Prefix, at: Loc) -> bool
    ensures { result ≡ origin net.now (policy_of policy.now) prefix at }
{
    match origins_of(policy, prefix) {
        None => net.is_peer(at),
        Some(origins) => origins.holds(at),
    }
}
