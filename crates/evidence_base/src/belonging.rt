//! To which case a prefix belongs.
ghost use Rattle.std.specs.Prelude.{◌≡◌, ◌<◌, ◌+◌, IfSome, length, option_and_then, option_map};
ghost use Rattle.std.specs.List.{list_any};
ghost use Rattle.net_base.specs.Network.{PlainNet};
ghost use Rattle.net_base.specs.Prefixes.{contains, only};
ghost use Rattle.policy_base.specs.Policies.{policy_of};
ghost use Rattle.config_base.specs.Configs.{PlainConfig};
ghost use Rattle.config_base.specs.Lines.{class_of as class_in};
ghost use Rattle.evidence_base.specs.Made.{IsConfigOf, case_at, patterns_of};

use crate::evidence::{CaseEvidence, Evidence};
use net_base::{Pattern, Prefix};
use policy_base::{Case, Policy, statement_at};

// Whether one of some patterns contains a prefix.
fn is_matched(patterns: &[Pattern], prefix: Prefix) -> bool
    ensures { result ≡ list_any (λ pattern. contains pattern prefix) patterns.now }
{
    patterns.iter().any(|pattern| pattern.contains(prefix))
}

// Whether a prefix is one of some.
fn is_named(prefixes: &[Prefix], prefix: Prefix) -> bool
    ensures { result ≡ list_any (λ named. contains (only named) prefix) prefixes.now }
{
    prefixes
        .iter()
        .any(|named| Pattern::only(*named).contains(prefix))
}

// Whether a prefix belongs to a case: whether the case names it or, where the case is external, a pattern of its statement contains it.
fn is_of_case(policy: &Policy, case: &Case, prefix: Prefix) -> bool
    ensures { result ≡ list_any (λ pattern. contains pattern prefix) (patterns_of (policy_of policy.now) case.now) }
{
    if !case.external {
        return is_named(case.prefixes.as_slice(), prefix);
    }
    match statement_at(policy, case.statement) {
        None => false,
        Some(statement) => is_matched(statement.patterns.as_slice(), prefix),
    }
}

// The place, from 0, of the first case to which a prefix belongs.
fn place_of(policy: &Policy, cases: &[CaseEvidence], prefix: Prefix) -> Option<usize>
    ensures within { IfSome result (λ place. place < length cases.now) }
    ensures class { (net : PlainNet) (config : PlainConfig) → IsConfigOf net (policy_of policy.now) cases.now config
        → option_map (λ place. place + 1) result ≡ class_in config prefix }
{
    for i in 0..cases.len() {
        if is_of_case(policy, cases[i].case(), prefix) {
            return Some(i);
        }
    }
    None
}

/// The class of a prefix, in the configuration that is made of the evidence: the number, from 1, of the first case to which the prefix
/// belongs. No configuration is needed for that.
pub fn class_of(policy: &Policy, evidence: &Evidence, prefix: Prefix) -> Option<usize>
    ensures { (net : PlainNet) (config : PlainConfig) → IsConfigOf net (policy_of policy.now) evidence.now.cases config → result ≡ class_in config prefix }
{
    let cases = evidence.cases.as_slice();
    let place = place_of(policy, cases, prefix)?;
    Some(place + 1)
}

/// The evidence of the case of that class.
pub fn case_of<'a>(
    policy: &Policy,
    evidence: &'a Evidence,
    prefix: Prefix,
) -> Option<&'a CaseEvidence>
    ensures { (net : PlainNet) (config : PlainConfig) → IsConfigOf net (policy_of policy.now) evidence.now.cases config
        → option_map (λ c. c.now) result ≡ option_and_then (case_at evidence.now.cases) (class_in config prefix) }
{
    let cases = evidence.cases.as_slice();
    let place = place_of(policy, cases, prefix)?;
    Some(&cases[place])
}
