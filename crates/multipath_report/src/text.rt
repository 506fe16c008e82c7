//! The text of where packets go.
ghost use Rattle.std.specs.Prelude.{IfOk};
ghost use Rattle.policy_base.specs.Policies.{IsPolicyOf, policy_of};
ghost use Rattle.evidence_law.specs.Passes.{Passes};
ghost use Rattle.scenarios.specs.Scenarios.{failures_of};
ghost use Rattle.scenarios.specs.Situations.{IsSituation};
ghost use Rattle.multipath_report.specs.Texts.{IsMultipathText};

use crate::lines::{push_count, push_idle, push_routers, push_sessions};
use crate::told::Told;
use evidence_base::{Evidence, class_of};
use input_output::NoMemory;
use multipath_law::Multipath;
use outcome_claims::claims_of;
use outcome_report::push_head;
use scenarios::Situation;
use std::alloc::Global;

/// The text of where packets go in an outcome, under a configuration for which the evidence passes: the prefix and its class, a line for each router in
/// order of location, one for each session that the policy claims, one for each idle link, and how many of these there are of how many
/// links that live.
pub fn multipath_text(
    alloc: Global,
    evidence: &Evidence,
    situation: &Situation<'_>,
    multipath: &Multipath,
) -> Result<Vec<u8>, NoMemory>
    requires situation { IsSituation situation.now }
    requires fits { IsPolicyOf situation.now.net.now (policy_of situation.now.policy.now) }
    requires passes { Passes situation.now.net.now (policy_of situation.now.policy.now) situation.now.config.now evidence.now.cases }
    ensures { IfOk result (λ v. IsMultipathText situation.now.net.now (policy_of situation.now.policy.now) situation.now.config.now (failures_of situation.now.scenario.now)
        situation.now.scenario.now.prefix situation.now.outcome.now.routes multipath.now v.items) }
{
    let net = situation.net;
    let policy = situation.policy;
    let prefix = situation.scenario.prefix;
    let claims = claims_of(alloc, net, policy, evidence, prefix)?;
    let sets = multipath.sets.as_slice();
    let told = Told {
        situation,
        sets,
        claims,
    };
    let idle = multipath.idle.as_slice();
    let mut text = Vec::new(alloc);
    push_head(&mut text, prefix, class_of(policy, evidence, prefix))?;
    push_routers(&mut text, &told)?;
    push_sessions(alloc, &mut text, &told)?;
    push_idle(&mut text, net, idle)?;
    push_count(&mut text, idle.len(), multipath.live)?;
    Ok(text)
}
