//! The command `audit`.
ghost use Rattle.std.specs.Prelude.{◌≡◌, ◌<◌, length};
ghost use Rattle.policy_base.specs.Policies.{IsPolicyOf, policy_of};
ghost use Rattle.policy_base.specs.CaseNumbers.{OriginsAreRouters};
ghost use Rattle.evidence_law.specs.Passes.{Passes};
ghost use Rattle.run_base.specs.Said.{IsGiven, said};
ghost use Rattle.input_texts.specs.Texts.{OfTexts};
ghost use Rattle.judging_jobs.specs.Audited.{SaysOfPassing, SaysOfPolicy, SaysOfRoutes, SaysUnder};

use crate::audit_lines::{stable_line, unstable_line};
use crate::fails_line;
use config_base::Config;
use evidence_base::Evidence;
use evidence_check::check;
use evidence_verdicts::Verdict;
use input_texts::{config_for, evidence_for, net_of, policy_for, scenario_for, tables_for};
use net_base::Net;
use outcome_report::report;
use policy_base::Policy;
use run_base::Stop;
use scenarios::{Outcome, Scenario};
use std::alloc::Global;
use table_audit::audit;
use text_parts::push_bytes;

// What the routes come to where the evidence passes: that they are stable, and their report, or why a router isn't.
fn passing_text(
    alloc: Global,
    net: &Net,
    policy: &Policy,
    config: &Config,
    evidence: &Evidence,
    scenario: &Scenario,
    outcome: &Outcome,
) -> Result<Vec<u8>, Stop>
    requires fits { IsPolicyOf net.now (policy_of policy.now) }
    requires size { length outcome.now.routes ≡ length net.now.routers }
    requires passes { Passes net.now (policy_of policy.now) config.now evidence.now.cases }
    ensures { IsGiven (SaysOfPassing net.now (policy_of policy.now) config.now scenario.now outcome.now.routes) (said result) }
{
    let verdict = audit(net, policy, config, scenario, outcome);
    if let Some(line) = unstable_line(alloc, net, verdict)? {
        return Err(Stop::Failing(line));
    }
    let report = report(alloc, net, policy, evidence, scenario, outcome)?;
    let mut text = stable_line(alloc)?;
    push_bytes(&mut text, &report)?;
    Ok(text)
}

// What the routes come to. The evidence is judged first.
fn routes_text(
    alloc: Global,
    net: &Net,
    policy: &Policy,
    config: &Config,
    evidence: &Evidence,
    scenario: &Scenario,
    outcome: &Outcome,
) -> Result<Vec<u8>, Stop>
    requires routers { OriginsAreRouters net.now policy.now.origins }
    requires fits { IsPolicyOf net.now (policy_of policy.now) }
    requires size { length outcome.now.routes ≡ length net.now.routers }
    ensures { IsGiven (SaysOfRoutes net.now (policy_of policy.now) config.now evidence.now.cases scenario.now outcome.now.routes) (said result) }
{
    match check(alloc, net, policy, config, evidence)? {
        Verdict::Holds => passing_text(alloc, net, policy, config, evidence, scenario, outcome),
        Verdict::Fails(rule, shown) => Err(Stop::Failing(fails_line(alloc, rule, shown)?)),
    }
}

// What the texts of a scenario and of tables come to.
fn tables_text(
    alloc: Global,
    net: &Net,
    policy: &Policy,
    config: &Config,
    evidence: &Evidence,
    scenario: &[u8],
    tables: &[u8],
) -> Result<Vec<u8>, Stop>
    requires routers { OriginsAreRouters net.now policy.now.origins }
    requires fits { IsPolicyOf net.now (policy_of policy.now) }
    ensures { IsGiven (SaysUnder scenario.now tables.now net.now (policy_of policy.now) config.now evidence.now.cases) (said result) }
{
    let scenario = scenario_for(alloc, net, scenario)?;
    let outcome = tables_for(alloc, net, tables)?;
    routes_text(alloc, net, policy, config, evidence, &scenario, &outcome)
}

// What the texts after those of the topology and the policy come to.
#[tactic(auto, unfolding(input_texts::specs::Texts::OfPairTexts))]
fn policy_text(
    alloc: Global,
    net: &Net,
    policy: &Policy,
    config: &[u8],
    evidence: &[u8],
    scenario: &[u8],
    tables: &[u8],
) -> Result<Vec<u8>, Stop>
    requires routers { OriginsAreRouters net.now policy.now.origins }
    requires fits { IsPolicyOf net.now (policy_of policy.now) }
    requires short { length config.now < 4294967295 }
    ensures { IsGiven (SaysOfPolicy config.now evidence.now scenario.now tables.now net.now (policy_of policy.now)) (said result) }
{
    let config = config_for(alloc, config)?;
    let evidence = evidence_for(alloc, evidence)?;
    tables_text(alloc, net, policy, &config, &evidence, scenario, tables)
}

/// What the texts of a topology, of a policy, of a configuration, of evidence, of a scenario and of tables come to: that the tables are
/// stable, and their report; or why the run stops. Evidence that fails stops it, and so does a router that isn't stable.
#[tactic(auto, unfolding(input_texts::specs::Texts::OfTexts))]
pub fn audit_texts(
    alloc: Global,
    topology: &[u8],
    policy: &[u8],
    config: &[u8],
    evidence: &[u8],
    scenario: &[u8],
    tables: &[u8],
) -> Result<Vec<u8>, Stop>
    requires policy { length policy.now < 4294967295 }
    requires config { length config.now < 4294967295 }
    ensures { IsGiven (OfTexts (SaysOfPolicy config.now evidence.now scenario.now tables.now) topology.now policy.now) (said result) }
{
    let net = net_of(alloc, topology)?;
    let policy = policy_for(alloc, &net, policy)?;
    policy_text(alloc, &net, &policy, config, evidence, scenario, tables)
}
