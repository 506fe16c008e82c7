//! What carries nothing in an outcome.
ghost use Rattle.std.specs.Prelude.{◌≡◌, IfOk, length};
ghost use Rattle.config_base.specs.Configs.{PlainConfig};
ghost use Rattle.policy_base.specs.Policies.{IsPolicyOf, policy_of};
ghost use Rattle.evidence_law.specs.Passes.{Passes};
ghost use Rattle.settled_law.specs.Settled.{IsFullyStable};
ghost use Rattle.scenarios.specs.Scenarios.{failures_of};
ghost use Rattle.drain_report.specs.DrainFree.{IsDrain};

use crate::Drain;
use crate::free::Spared;
use crate::steps::steps;
use cut_ranks::live_cuts;
use evidence_base::{Evidence, case_of};
use input_output::NoMemory;
use net_base::{Net, known_net, known_prefix};
use outcome_claims::ReportedOutcome;
use policy_base::Policy;
use scenarios::{Outcome, Scenario, Survivors};
use std::alloc::Global;

/// The links and routers that carry nothing under the failures of a scenario, in the settled outcome of the configuration that is made of the
/// evidence: no step of a path is over the link, or leads to the router. Nothing settles anew.
pub fn drain(
    alloc: Global,
    net: &Net,
    policy: &Policy,
    evidence: &Evidence,
    scenario: &Scenario,
    outcome: &Outcome,
) -> Result<Drain, NoMemory>
    requires fits { IsPolicyOf net.now (policy_of policy.now) }
    requires size { length outcome.now.routes ≡ length net.now.routers }
    requires settled { (config : PlainConfig) → Passes net.now (policy_of policy.now) config evidence.now.cases
        → IsFullyStable net.now (policy_of policy.now) config (failures_of scenario.now) scenario.now.prefix outcome.now.routes }
    ensures { IfOk result (λ drain. (config : PlainConfig) → Passes net.now (policy_of policy.now) config evidence.now.cases
        → IsDrain net.now (policy_of policy.now) config (failures_of scenario.now) scenario.now.prefix outcome.now.routes drain) }
{
    let prefix = scenario.prefix;
    known_net(net);
    known_prefix(prefix);
    let case = case_of(policy, evidence, prefix);
    let situation = ReportedOutcome::new(alloc, net, case, scenario, outcome)?;
    let steps = steps(alloc, &situation)?;
    let spared = Spared::new(net, alloc, prefix, steps);
    let survivors = Survivors::new(net, scenario);
    let cuts = live_cuts(alloc, net, &survivors)?;
    Ok(Drain {
        free: spared.among(alloc, net, &cuts)?,
        live: cuts.len(),
    })
}
