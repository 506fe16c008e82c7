//! Evidence with new tags and raised numbers.
ghost use Rattle.std.specs.Prelude.{◌≡◌, ◌≤◌, ◌<◌, ◌^◌, ◌++◌, ◌∷◌, [], List as Items, IfErr, IfOk, OnOk, map};
ghost use Rattle.std.specs.List.{AllByRecursion};
ghost use Rattle.policy_base.specs.Policies.{policy_of};
ghost use Rattle.policy_base.specs.CaseNumbers.{OriginsAreRouters};
ghost use Rattle.net_base.specs.declared.numbers.Tag.{Tag as PlainTag};
ghost use Rattle.config_base.specs.Configs.{PlainConfig};
ghost use Rattle.evidence_base.specs.Made.{PlainCaseEvidence, IsConfigOf};
ghost use Rattle.free_tags.specs.Reached.{LeavesFree};
ghost use Rattle.free_tags.specs.Taken.{greatest, prefs_in};
ghost use Rattle.evidence_renewal.specs.declared.fault.RenewalFault.TheVariants.{PrefsRunOut};
ghost use Rattle.evidence_renewal.specs.Renewed.{AreRenewed, AreRenewedCases, IsFaultOf, IsRenewedCase, IsRenewedEvidence, IsTooGreat, raised};

use crate::fault::RenewalFault;
use config_base::Config;
use config_maker::config_of;
use evidence_base::{CaseEvidence, Evidence, case_copy};
use free_tags::{FreeTags, greatest_pref, tags_of_config};
use graph_base::Prefs;
use input_output::NoMemory;
use net_base::{List, Net, known_net};
use policy_base::{Policy, known_policy};
use std::alloc::Global;

// A preference number, raised.
fn raise(by: u32, number: u32) -> Result<u32, RenewalFault>
    ensures raised { IfOk result (λ n. n ≡ raised by number) }
    ensures fits { IfOk result (λ n. raised by number < 2 ^ 32) }
    ensures past { IfErr result (λ e. (e ≡ PrefsRunOut by) × (2 ^ 32 ≤ raised by number)) }
{
    if number == 0 {
        return Ok(0);
    }
    match number.checked_add(by) {
        Some(sum) => Ok(sum),
        None => Err(RenewalFault::PrefsRunOut(by)),
    }
}

// The numbers of a case, raised.
fn raise_all(alloc: Global, by: u32, numbers: &[u32]) -> Result<List<u32>, RenewalFault>
    ensures raised { IfOk result (λ all. all ≡ map (raised by) numbers.now) }
    ensures fits { IfOk result (λ all. AllByRecursion (λ n. raised by n < 2 ^ 32) numbers.now) }
    ensures past { IfErr result (IsTooGreat by numbers.now) }
{
    let mut all = List::new(alloc);
    for place in 0..numbers.len() {
        let raised = raise(by, numbers[place])?;
        all.push(raised)?;
    }
    Ok(all)
}

// A case with new tags and raised numbers.
fn renewed_case(
    alloc: Global,
    by: u32,
    free: &mut FreeTags,
    case: &CaseEvidence,
) -> Result<CaseEvidence, RenewalFault>
    ensures renewed { (taken : Items PlainTag) → LeavesFree taken free.old → IfOk result (IsRenewedCase taken by case.now) }
    ensures kept { (taken : Items PlainTag) → LeavesFree taken free.old → OnOk result (LeavesFree taken free.new) }
    ensures past { IfErr result (IsTooGreat by case.now.numbers) }
{
    let numbers = raise_all(alloc, by, case.prefs())?;
    let tags = free.all_renewed(alloc, case.tags())?;
    let graph = case.graph().copy(alloc)?;
    let copy = case_copy(alloc, case.case())?;
    Ok(CaseEvidence::new(copy, graph, Prefs { of: numbers }, tags))
}

// Puts a case, renewed, behind others.
fn push_renewed(
    alloc: Global,
    by: u32,
    free: &mut FreeTags,
    all: &mut List<CaseEvidence>,
    case: &CaseEvidence,
) -> Result<(), RenewalFault>
    ensures renewed { (taken : Items PlainTag) (done : Items PlainCaseEvidence) → LeavesFree taken free.old → AreRenewedCases taken by done all.old
        → OnOk result (AreRenewedCases taken by (done ++ case.now ∷ []) all.new) }
    ensures kept { (taken : Items PlainTag) → LeavesFree taken free.old → OnOk result (LeavesFree taken free.new) }
    ensures past { IfErr result (IsTooGreat by case.now.numbers) }
{
    let renewed = renewed_case(alloc, by, free, case)?;
    all.push(renewed)?;
    Ok(())
}

// The cases, renewed.
fn renewed_cases(
    alloc: Global,
    by: u32,
    free: &mut FreeTags,
    cases: &[CaseEvidence],
) -> Result<List<CaseEvidence>, RenewalFault>
    ensures renewed { (taken : Items PlainTag) → LeavesFree taken free.old → IfOk result (AreRenewedCases taken by cases.now) }
    ensures past { IfErr result (IsFaultOf by cases.now) }
{
    let mut all = List::new(alloc);
    for place in 0..cases.len() {
        push_renewed(alloc, by, free, &mut all, &cases[place])?;
    }
    Ok(all)
}

/// The evidence that is compiled from a policy, with tags and preferences that an old configuration leaves free: each tag stands nowhere in
/// it, and each preference is raised by its greatest one. The old one may be of any network. A preference that would
/// pass 4,294,967,295 is a fault.
pub fn renewed_evidence(
    alloc: Global,
    compiled: &Evidence,
    old: &Config,
) -> Result<Evidence, RenewalFault>
    ensures renewed { IfOk result (λ evidence. AreRenewed old.now compiled.now.cases evidence.cases) }
    ensures past { IfErr result (IsFaultOf (greatest (prefs_in old.now)) compiled.now.cases) }
{
    let taken = tags_of_config(alloc, old)?;
    let by = greatest_pref(old);
    let mut free = FreeTags::new(alloc, &taken)?;
    let cases = renewed_cases(alloc, by, &mut free, compiled.cases.as_slice())?;
    Ok(Evidence { cases })
}

/// The configuration that is made of renewed evidence.
pub fn renewed_config(
    alloc: Global,
    net: &Net,
    policy: &Policy,
    evidence: &Evidence,
) -> Result<Config, NoMemory>
    requires routers { OriginsAreRouters net.now policy.now.origins }
    requires renewed { (old : PlainConfig) × IsRenewedEvidence net.now (policy_of policy.now) old evidence.now.cases }
    ensures { IfOk result (λ config. IsConfigOf net.now (policy_of policy.now) evidence.now.cases config) }
{
    known_net(net);
    known_policy(policy);
    config_of(alloc, net, policy, evidence.cases.as_slice())
}
