//! The patterns of the classes.
ghost use Rattle.std.specs.Prelude.{◌≡◌, IfOk, map};
ghost use Rattle.net_base.specs.Prefixes.{only};
ghost use Rattle.policy_base.specs.Policies.{policy_of};
ghost use Rattle.evidence_base.specs.Made.{PlainCaseEvidence, patterns_of as plain_patterns_of};

use evidence_base::CaseEvidence;
use net_base::{List, Pattern, Prefix};
use policy_base::{Case, Policy, statement_at};
use std::alloc::{AllocError, Global};

// For each of some prefixes the pattern that contains it alone.
fn only_each(alloc: Global, prefixes: &[Prefix]) -> Result<List<Pattern>, AllocError>
    ensures { IfOk result (λ patterns. patterns ≡ map only prefixes.now) }
{
    let mut patterns = List::new(alloc);
    for prefix in prefixes {
        patterns.push(Pattern::only(*prefix))?;
    }
    Ok(patterns)
}

// The patterns of a case: its prefixes, or those of its statement where it's external.
fn patterns_of(alloc: Global, policy: &Policy, case: &Case) -> Result<List<Pattern>, AllocError>
    ensures { IfOk result (λ patterns. patterns ≡ plain_patterns_of (policy_of policy.now) case.now) }
{
    if !case.external {
        return only_each(alloc, case.prefixes.as_slice());
    }
    match statement_at(policy, case.statement) {
        Some(statement) => statement.patterns.copy(alloc),
        None => Ok(List::new(alloc)),
    }
}

/// The patterns of each case.
pub fn classes_of(
    alloc: Global,
    policy: &Policy,
    evidence: &[CaseEvidence],
) -> Result<List<List<Pattern>>, AllocError>
    ensures { IfOk result (λ classes. classes ≡ map (λ (c : PlainCaseEvidence). plain_patterns_of (policy_of policy.now) c.case) evidence.now) }
{
    let mut classes = List::new(alloc);
    for case in evidence {
        classes.push(patterns_of(alloc, policy, case.case())?)?;
    }
    Ok(classes)
}
