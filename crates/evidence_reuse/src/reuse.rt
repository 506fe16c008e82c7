//! What may take over, with what stays.
ghost use Rattle.std.specs.Prelude.{◌≡◌, ◌↔◌, ℕ, IfErr, IfOk, IsTrue, Some, map, slice_get};
ghost use Rattle.policy_base.specs.Policies.{policy_of};
ghost use Rattle.policy_base.specs.CaseNumbers.{OriginsAreRouters};
ghost use Rattle.evidence_base.specs.Made.{PlainCaseEvidence};
ghost use Rattle.config_maker.specs.Conditions.{AreClasses, AreSingle};
ghost use Rattle.compile_core.specs.Compiling.{IsEvidenceOfMade};
ghost use Rattle.evidence_verdicts.specs.Rules.{KeepsTag};
ghost use Rattle.stage_classes.specs.Cells.{cells as cells_between};
ghost use Rattle.evidence_reuse.specs.Reused.{AreForEach, AreReused, IsFault, IsReuse, IsReusedCase, IsStop, LetsTakeOver, MayTakeOver, classes_of, with_marks};
ghost use Rattle.evidence_reuse.specs.Staying.{AreNumbers};

use crate::fault::ReuseFault;
use crate::staying::Beside;
use config_base::Config;
use config_maker::config_of;
use evidence_base::{CaseEvidence, Evidence, case_copy};
use evidence_check::tag_fault;
use evidence_renewal::{renewed_config, renewed_evidence};
use graph_base::Prefs;
use input_output::NoMemory;
use net_base::{List, Net, known_net};
use policy_base::{Policy, known_policy};
use stage_check::{Verdict, verdict_on};
use stage_classes::{Cell, cells_of};
use std::alloc::Global;

/// A configuration with its evidence.
#[derive(Drop)]
pub struct Reuse {
    /// The configuration.
    pub config: Config,
    /// Its evidence.
    pub evidence: Evidence,
}

// A case with the numbers and the tags of another one, which has the same graph.
fn marked(
    alloc: Global,
    case: &CaseEvidence,
    source: &CaseEvidence,
) -> Result<CaseEvidence, NoMemory>
    requires { source.now.graph ≡ case.now.graph }
    ensures { IfOk result (λ d. d ≡ with_marks case.now source.now) }
{
    let numbers = List::from_vec(Vec::from_slice(alloc, source.prefs())?);
    let tags = List::from_vec(Vec::from_slice(alloc, source.tags())?);
    let graph = source.graph().copy(alloc)?;
    let copy = case_copy(alloc, case.case())?;
    Ok(CaseEvidence::new(copy, graph, Prefs { of: numbers }, tags))
}

// A compiled case with the numbers and the tags of the old case as which it stays, or where there is none of the renewed one.
fn reused_case(
    alloc: Global,
    beside: &Beside<'_>,
    numbers: &[Option<usize>],
    place: usize,
    case: &CaseEvidence,
    renewed: &CaseEvidence,
) -> Result<CaseEvidence, NoMemory>
    requires numbers { AreNumbers beside.now.cells.now beside.now.olds.now beside.now.compiled.now numbers.now }
    requires at { slice_get beside.now.compiled.now place ≡ Some case.now }
    requires graph { renewed.now.graph ≡ case.now.graph }
    ensures { IfOk result (IsReusedCase beside.now.cells.now beside.now.olds.now beside.now.compiled.now place case.now renewed.now) }
{
    match beside.staying(numbers, place, case) {
        Some(old) => marked(alloc, case, old),
        None => marked(alloc, case, renewed),
    }
}

// The compiled cases, each so.
fn reused_cases(
    alloc: Global,
    beside: &Beside<'_>,
    renewed: &[CaseEvidence],
) -> Result<List<CaseEvidence>, NoMemory>
    requires { AreForEach beside.now.compiled.now renewed.now }
    ensures { IfOk result (AreReused beside.now.cells.now beside.now.olds.now beside.now.compiled.now renewed.now) }
{
    let compiled = beside.compiled;
    let numbers = beside.numbers(alloc)?;
    let mut all = List::new(alloc);
    for place in 0..compiled.len() {
        let case = reused_case(
            alloc,
            beside,
            &numbers,
            place,
            &compiled[place],
            &renewed[place],
        )?;
        all.push(case)?;
    }
    Ok(all)
}

// Whether nothing of tags and preferences is in the way.
fn lets_take_over(verdict: Verdict) -> bool
    ensures { IsTrue result ↔ LetsTakeOver verdict }
{
    match verdict {
        Verdict::SharedTag(_) | Verdict::LowPref(_) => false,
        Verdict::MayMix | Verdict::Unlike(_) | Verdict::TooManyLines(_) => true,
    }
}

// The configuration of cases whose tags are right, where it may take over from an old one.
fn made_config(
    alloc: Global,
    net: &Net,
    policy: &Policy,
    cells: &[Cell],
    old: &Config,
    cases: &[CaseEvidence],
) -> Result<Config, ReuseFault>
    requires classes { AreClasses (policy_of policy.now) (map (λ (c : PlainCaseEvidence). c.case) cases.now) }
    requires single { AreSingle net.now cases.now }
    requires cells { cells.now ≡ cells_between old.now.classes (classes_of (policy_of policy.now) cases.now) }
    requires tags { (k n : ℕ) → KeepsTag net.now cases.now k n }
    ensures may { IfOk result (λ config. MayTakeOver net.now (policy_of policy.now) old.now config cases.now) }
    ensures stop { IfErr result (IsStop net.now (policy_of policy.now) old.now cases.now) }
{
    let config = config_of(alloc, net, policy, cases)?;
    let verdict = verdict_on(alloc, cells, old, &config)?;
    if lets_take_over(verdict) {
        Ok(config)
    } else {
        Err(ReuseFault::OtherEvidence)
    }
}

// The configuration of cases, where it may take over from an old one.
fn judged_config(
    alloc: Global,
    net: &Net,
    policy: &Policy,
    cells: &[Cell],
    old: &Config,
    cases: &[CaseEvidence],
) -> Result<Config, ReuseFault>
    requires classes { AreClasses (policy_of policy.now) (map (λ (c : PlainCaseEvidence). c.case) cases.now) }
    requires single { AreSingle net.now cases.now }
    requires cells { cells.now ≡ cells_between old.now.classes (classes_of (policy_of policy.now) cases.now) }
    ensures may { IfOk result (λ config. MayTakeOver net.now (policy_of policy.now) old.now config cases.now) }
    ensures stop { IfErr result (IsStop net.now (policy_of policy.now) old.now cases.now) }
{
    match tag_fault(alloc, net, cases)? {
        Some(_) => Err(ReuseFault::OtherEvidence),
        None => made_config(alloc, net, policy, cells, old, cases),
    }
}

/// What is compiled from a policy, with what stays of an old configuration and its evidence, and renewed where nothing does; and the configuration
/// that is made of it, which may take over from the old one; or that it may not.
pub fn reused(
    alloc: Global,
    net: &Net,
    policy: &Policy,
    compiled: &Evidence,
    old: &Config,
    evidence: &Evidence,
) -> Result<Reuse, ReuseFault>
    requires routers { OriginsAreRouters net.now policy.now.origins }
    requires made { IsEvidenceOfMade net.now (policy_of policy.now) compiled.now.cases }
    ensures reuse { IfOk result (λ r. IsReuse net.now (policy_of policy.now) old.now evidence.now.cases r.config r.evidence.cases) }
    ensures fault { IfErr result (IsFault net.now (policy_of policy.now) old.now evidence.now.cases compiled.now.cases) }
{
    known_net(net);
    known_policy(policy);
    let renewed = renewed_evidence(alloc, compiled, old)?;
    let plain = renewed_config(alloc, net, policy, &renewed)?;
    let cells = cells_of(alloc, old.classes(), plain.classes())?;
    let beside = Beside {
        cells: cells.as_slice(),
        olds: evidence.cases.as_slice(),
        compiled: compiled.cases.as_slice(),
    };
    let cases = reused_cases(alloc, &beside, renewed.cases.as_slice())?;
    let config = judged_config(alloc, net, policy, cells.as_slice(), old, cases.as_slice())?;
    Ok(Reuse {
        config,
        evidence: Evidence { cases },
    })
}
