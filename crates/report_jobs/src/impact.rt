//! The command `impact`.
ghost use Rattle.std.specs.Prelude.{◌≡◌, ◌<◌, length};
ghost use Rattle.policy_base.specs.Policies.{IsPolicyOf, policy_of};
ghost use Rattle.policy_base.specs.CaseNumbers.{OriginsAreRouters};
ghost use Rattle.scenarios.specs.Scenarios.{failures_of};
ghost use Rattle.outcome_base.specs.Outcomes.{no_failures};
ghost use Rattle.report_jobs.specs.Impacts.{SaysOfPolicy};
ghost use Rattle.input_texts.specs.Texts.{OfTexts};
ghost use Rattle.run_base.specs.Said.{IsGiven, said};

use compile_jobs::compiled_evidence_for;
use evidence_base::class_of;
use impact_report::{impact, impact_text};
use input_texts::{net_of, policy_for};
use net_base::{List, LocSet, Net, Prefix};
use policy_base::Policy;
use run_base::Stop;
use scenarios::Scenario;
use std::alloc::Global;

// A prefix, while nothing fails.
fn nothing_fails(alloc: Global, prefix: Prefix) -> Scenario
    ensures prefix { result.prefix ≡ prefix }
    ensures failures { failures_of result ≡ no_failures }
{
    Scenario {
        prefix,
        dead: LocSet::new(),
        dead_links: List::new(alloc),
        silent: List::new(alloc),
    }
}

// What single cuts change for a prefix, by the evidence for what is compiled from the policy, or why the policy is refused.
fn cuts_text(alloc: Global, net: &Net, policy: &Policy, prefix: Prefix) -> Result<Vec<u8>, Stop>
    requires routers { OriginsAreRouters net.now policy.now.origins }
    requires fits { IsPolicyOf net.now (policy_of policy.now) }
    ensures { IsGiven (SaysOfPolicy prefix net.now (policy_of policy.now)) (said result) }
{
    let evidence = compiled_evidence_for(alloc, net, policy)?;
    let scenario = nothing_fails(alloc, prefix);
    let impact = impact(alloc, net, policy, &evidence, &scenario)?;
    let class = class_of(policy, &evidence, prefix);
    Ok(impact_text(alloc, net, prefix, class, &impact)?)
}

/// What the texts of a topology and of a policy come to for a prefix: the impact of single cuts on the sources that the policy claims for
/// it, or why the run stops.
#[tactic(auto, unfolding(input_texts::specs::Texts::OfTexts))]
pub fn impact_texts(
    alloc: Global,
    topology: &[u8],
    policy: &[u8],
    prefix: Prefix,
) -> Result<Vec<u8>, Stop>
    requires { length policy.now < 4294967295 }
    ensures { IsGiven (OfTexts (SaysOfPolicy prefix) topology.now policy.now) (said result) }
{
    let net = net_of(alloc, topology)?;
    let policy = policy_for(alloc, &net, policy)?;
    cuts_text(alloc, &net, &policy, prefix)
}
