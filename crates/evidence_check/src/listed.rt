//! The rule of cases, for one case at a time.
ghost use Rattle.std.specs.Prelude.{◌≡◌, ◌≢◌, ◌<◌, ◌≤◌, ℕ, IfNone, IfOk, IfSome, None, OnOk, Some, length, slice_get};
ghost use Rattle.policy_base.specs.declared.case.Case.{Case as PlainCase};
ghost use Rattle.policy_base.specs.Cases.{case_list};
ghost use Rattle.policy_base.specs.CaseNumbers.{OfCase};
ghost use Rattle.policy_base.specs.Policies.{policy_of};
ghost use Rattle.evidence_base.specs.Made.{PlainCaseEvidence};
ghost use Rattle.case_core.specs.Automata.{AllFit};
ghost use Rattle.case_core.specs.Refusals.{IsGraphOf};
ghost use Rattle.case_core.specs.declared.refusal.CompileRefusal.TheVariants.{NoMemory as OutOfMemory};
ghost use Rattle.evidence_check.specs.Listed.{IsWithin};

use crate::same::is_same_case;
use case_core::{CaseGraph, CompileRefusal, KeptAutomata, graph_within_limits};
use evidence_base::CaseEvidence;
use input_output::NoMemory;
use net_base::Net;
use policy_base::{Case, CaseList, Policy};
use std::alloc::Global;

// The evidence for the case at a place of the list, or None where there is none, or where it is for another case.
pub(crate) fn evidence_at<'a>(
    cases: &[Case],
    evidence: &'a [CaseEvidence],
    place: usize,
) -> Option<&'a CaseEvidence>
    requires { place < length cases.now }
    ensures here { IfSome result (λ found. slice_get evidence.now place ≡ Some found.now) }
    ensures same { IfSome result (λ found. slice_get cases.now place ≡ Some found.now.case) }
    ensures differs { IfNone result ((c : PlainCase) (e : PlainCaseEvidence) → slice_get cases.now place ≡ Some c → slice_get evidence.now place ≡ Some e → e.case ≢ c) }
{
    if place >= evidence.len() {
        return None;
    }
    let found = &evidence[place];
    if is_same_case(found.case(), &cases[place]) {
        Some(found)
    } else {
        None
    }
}

// A limit is passed, unless memory was refused.
fn past_limit(refusal: &CompileRefusal) -> Result<(), NoMemory>
    ensures { OnOk result (refusal.now ≢ OutOfMemory) }
{
    match refusal {
        CompileRefusal::NoMemory => Err(NoMemory),
        _ => Ok(()),
    }
}

// The graph of the case with this number, from 1, or None where it is not within the limits on alternatives, on nodes and on
// steps, for which there is so much room.
pub(crate) fn within_limits(
    alloc: Global,
    net: &Net,
    policy: &Policy,
    cases: &CaseList,
    number: u32,
    room: u32,
    kept: &mut KeptAutomata,
) -> Result<Option<CaseGraph>, NoMemory>
    requires cases { cases.now.cases ≡ case_list net.now (policy_of policy.now) }
    requires from_one { 1 ≤ number }
    requires within { number ≤ length cases.now.cases }
    requires kept { AllFit net.now (policy_of policy.now) kept.old }
    ensures graph { IfOk result (λ o. IfSome o (λ given. OfCase net.now (policy_of policy.now) number (λ s c. IsGraphOf net.now room s c given))) }
    ensures past { IfOk result (λ o. IfNone o (OfCase net.now (policy_of policy.now) number (λ s c. (steps : ℕ) → ¬ IsWithin net.now s c room steps))) }
    ensures kept { AllFit net.now (policy_of policy.now) kept.new }
{
    match graph_within_limits(alloc, net, policy, cases, number, room, kept) {
        Ok(given) => Ok(Some(given)),
        Err(refusal) => {
            past_limit(&refusal)?;
            Ok(None)
        }
    }
}
