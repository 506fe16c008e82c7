//! The rule of the configuration.
ghost use Rattle.std.specs.Prelude.{◌≡◌, ◌<◌, ◌↔◌, IfOk, IsTrue};
ghost use Rattle.policy_base.specs.Policies.{policy_of};
ghost use Rattle.config_base.specs.Configs.{PlainConfig};
ghost use Rattle.config_text.specs.Spelled.{Spells};
ghost use Rattle.evidence_verdicts.specs.declared.rule.CheckRule.TheVariants.{ConfigDiffers};
ghost use Rattle.evidence_verdicts.specs.declared.verdict.Verdict.TheVariants.{Holds};
ghost use Rattle.evidence_verdicts.specs.Verdicts.{IsVerdict, KeepsBefore};

use crate::difference::block_of;
use config_maker::config_of;
use config_text::print_config;
use evidence_base::CaseEvidence;
use evidence_verdicts::{CheckRule, Shown, Verdict};
use input_output::NoMemory;
use net_base::{Net, known_net};
use policy_base::{Policy, known_policy};
use std::alloc::Global;
use text_parts::first_difference;

// Whether two texts are the same.
fn is_same_text(one: &[u8], other: &[u8]) -> bool
    ensures { IsTrue result ↔ one.now ≡ other.now }
{
    one == other
}

/// The verdict on the text of a configuration with evidence that keeps all rules but perhaps that of the configuration: it holds
/// where this is the text of the configuration that is made of the evidence. The text isn't read for it, so of one that spells no
/// configuration no more is said than that it doesn't hold.
pub fn text_verdict(
    alloc: Global,
    net: &Net,
    policy: &Policy,
    text: &[u8],
    evidence: &[CaseEvidence],
) -> Result<Verdict, NoMemory>
    requires { KeepsBefore ConfigDiffers net.now (policy_of policy.now) evidence.now }
    ensures verdict { IfOk result (λ verdict. (config : PlainConfig) → Spells text.now config → IsVerdict net.now (policy_of policy.now) config evidence.now verdict) }
    ensures spells { IfOk result (λ verdict. verdict ≡ Holds → (config : PlainConfig) × Spells text.now config) }
{
    known_net(net);
    known_policy(policy);
    let made = config_of(alloc, net, policy, evidence)?;
    let wanted = print_config(alloc, &made)?;
    if is_same_text(&wanted, text) {
        return Ok(Verdict::Holds);
    }
    let line = first_difference(&wanted, text);
    Ok(Verdict::Fails(
        CheckRule::ConfigDiffers,
        Shown {
            case: 0,
            first: block_of(&made, line),
            second: 0,
            line,
        },
    ))
}
