//! The rules of cases, over all of them.
ghost use Rattle.std.specs.Prelude.{◌≡◌, IfOk};
ghost use Rattle.policy_base.specs.Cases.{case_list};
ghost use Rattle.policy_base.specs.Policies.{policy_of};
ghost use Rattle.policy_base.specs.CaseNumbers.{OriginsAreRouters};
ghost use Rattle.evidence_verdicts.specs.declared.rule.CheckRule.TheVariants as rule;
ghost use Rattle.evidence_check.specs.CaseFaults.{IsLeastOrNone, least_with, lesser_of};

use crate::case_rules::{Fault, case_fault};
use crate::listed::{evidence_at, within_limits};
use crate::tags::case_number;
use case_core::KeptAutomata;
use evidence_base::CaseEvidence;
use evidence_law::limits::STEPS;
use evidence_verdicts::CheckRule;
use input_output::NoMemory;
use net_base::{Net, known_net};
use policy_base::{CaseList, Policy};
use std::alloc::Global;

/// A rule that fails in a case.
#[derive(Clone, Copy, Debug, PartialEq, Eq)]
pub struct CaseFault {
    /// The number of the case, from 1.
    pub case: u32,
    /// The rule that fails, and the nodes at which it does.
    pub fault: Fault,
}

impl CaseFault {
    // The cases differ at this number, or a limit is passed there.
    fn unlisted(case: u32) -> CaseFault
        ensures { result ≡ record { case = case; fault = record { rule = rule.Cases; first = 0; second = 0 } } }
    {
        CaseFault {
            case,
            fault: Fault {
                rule: CheckRule::Cases,
                first: 0,
                second: 0,
            },
        }
    }
}

// The one of two faults whose rule comes first; of one rule the first one.
fn lesser(one: CaseFault, other: CaseFault) -> CaseFault
    ensures { result ≡ lesser_of one other }
{
    if one.fault.rule.number() <= other.fault.rule.number() {
        one
    } else {
        other
    }
}

// The first rule that was found to fail so far, and then in a case.
fn least_of(least: Option<CaseFault>, case: u32, fault: Option<Fault>) -> Option<CaseFault>
    ensures { result ≡ least_with least case fault }
{
    let Some(fault) = fault else {
        return least;
    };
    let new = CaseFault { case, fault };
    match least {
        Some(old) => Some(lesser(old, new)),
        None => Some(new),
    }
}

/// The first of the rules before that on tags that fails, and the first case and the first nodes at which it does. What the
/// steps of a case take of the room is gone for the later ones. One automaton serves all cases of a statement.
pub fn cases_fault(
    alloc: Global,
    net: &Net,
    policy: &Policy,
    cases: &CaseList,
    evidence: &[CaseEvidence],
) -> Result<Option<CaseFault>, NoMemory>
    requires cases { cases.now.cases ≡ case_list net.now (policy_of policy.now) }
    requires routers { OriginsAreRouters net.now policy.now.origins }
    ensures { IfOk result (IsLeastOrNone net.now (policy_of policy.now) evidence.now) }
{
    known_net(net);
    let list = cases.cases.as_slice();
    let mut kept = KeptAutomata::new(alloc, policy)?;
    let mut room = STEPS as u32;
    let mut least = None;
    for place in 0..list.len() {
        let number = case_number(place)?;
        let Some(found) = evidence_at(list, evidence, place) else {
            return Ok(Some(CaseFault::unlisted(number)));
        };
        let Some(given) = within_limits(alloc, net, policy, cases, number, room, &mut kept)? else {
            return Ok(Some(CaseFault::unlisted(number)));
        };
        room -= given.used;
        least = least_of(least, number, case_fault(alloc, net, found, &given.graph)?);
    }
    if evidence.len() > list.len() {
        return Ok(Some(CaseFault::unlisted(case_number(list.len())?)));
    }
    Ok(least)
}
