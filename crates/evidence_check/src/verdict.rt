//! The verdict.
ghost use Rattle.std.specs.Prelude.{◌≡◌, ◌≢◌, IfOk, IfSome, MatchOption};
ghost use Rattle.config_base.specs.Configs.{PlainConfig};
ghost use Rattle.policy_base.specs.Policies.{policy_of};
ghost use Rattle.policy_base.specs.CaseNumbers.{OriginsAreRouters};
ghost use Rattle.config_text.specs.Spelled.{Spells};
ghost use Rattle.evidence_verdicts.specs.declared.rule.CheckRule.TheVariants.{ConfigDiffers, Tags};
ghost use Rattle.evidence_verdicts.specs.declared.verdict.Verdict.TheVariants.{Fails, Holds};
ghost use Rattle.evidence_verdicts.specs.Verdicts.{IsVerdict, KeepsBefore};

use crate::cases::{CaseFault, cases_fault};
use crate::config::text_verdict;
use crate::tags::{CaseNode, tag_fault};
use config_base::Config;
use config_text::print_config;
use evidence_base::{CaseEvidence, Evidence};
use evidence_verdicts::{CheckRule, Shown, Verdict};
use input_output::NoMemory;
use net_base::Net;
use policy_base::{Policy, cases};
use std::alloc::Global;

// The verdict that a rule fails in a case. No line of the configuration is shown.
fn of_case(found: CaseFault) -> Verdict
    ensures { result ≡ Fails found.fault.rule (record { case = found.case; first = found.fault.first; second = found.fault.second; line = 0 }) }
{
    Verdict::Fails(
        found.fault.rule,
        Shown {
            case: found.case,
            first: found.fault.first,
            second: found.fault.second,
            line: 0,
        },
    )
}

// The verdict that the tag of a node is wrong.
fn of_tag(at: CaseNode) -> Verdict
    ensures { result ≡ Fails Tags (record { case = at.case; first = at.node; second = 0; line = 0 }) }
{
    Verdict::Fails(
        CheckRule::Tags,
        Shown {
            case: at.case,
            first: at.node,
            second: 0,
            line: 0,
        },
    )
}

// The first rule that fails of those that are asked of the evidence alone, which are all but that of the configuration, and
// where it does: that is the verdict with every configuration. None where they all hold.
fn evidence_fault(
    alloc: Global,
    net: &Net,
    policy: &Policy,
    evidence: &[CaseEvidence],
) -> Result<Option<Verdict>, NoMemory>
    requires { OriginsAreRouters net.now policy.now.origins }
    ensures verdict { IfOk result (λ o. MatchOption o (KeepsBefore ConfigDiffers net.now (policy_of policy.now) evidence.now)
        (λ verdict. (config : PlainConfig) → IsVerdict net.now (policy_of policy.now) config evidence.now verdict)) }
    ensures fails { IfOk result (λ o. IfSome o (λ verdict. verdict ≢ Holds)) }
{
    let list = cases(alloc, net, policy)?;
    if let Some(found) = cases_fault(alloc, net, policy, &list, evidence)? {
        return Ok(Some(of_case(found)));
    }
    if let Some(at) = tag_fault(alloc, net, evidence)? {
        return Ok(Some(of_tag(at)));
    }
    Ok(None)
}

/// Judges the text of a configuration with the evidence of these cases, as `check` judges the configuration that it spells. The
/// text isn't read for it: where the evidence keeps the rules that are asked of it alone, the text must be that of the
/// configuration that is made of the evidence. So of a text that spells no configuration no more is said than that it doesn't
/// hold. The origins of the policy are routers of the network.
pub fn check_text(
    alloc: Global,
    net: &Net,
    policy: &Policy,
    text: &[u8],
    evidence: &[CaseEvidence],
) -> Result<Verdict, NoMemory>
    requires { OriginsAreRouters net.now policy.now.origins }
    ensures verdict { IfOk result (λ verdict. (config : PlainConfig) → Spells text.now config → IsVerdict net.now (policy_of policy.now) config evidence.now verdict) }
    ensures spells { IfOk result (λ verdict. verdict ≡ Holds → (config : PlainConfig) × Spells text.now config) }
{
    match evidence_fault(alloc, net, policy, evidence)? {
        Some(verdict) => Ok(verdict),
        None => text_verdict(alloc, net, policy, text, evidence),
    }
}

/// Judges a configuration with its evidence by the ten rules, each over all cases, in their order: all hold, or the first one
/// that fails and the first place at which it does. The origins of the policy are routers of the network.
pub fn check(
    alloc: Global,
    net: &Net,
    policy: &Policy,
    config: &Config,
    evidence: &Evidence,
) -> Result<Verdict, NoMemory>
    requires { OriginsAreRouters net.now policy.now.origins }
    ensures { IfOk result (IsVerdict net.now (policy_of policy.now) config.now evidence.now.cases) }
{
    let text = print_config(alloc, config)?;
    check_text(alloc, net, policy, &text, evidence.cases.as_slice())
}
