//! The command `replay`.
use compile_jobs::Answer;
use evidence_base::Evidence;
use input_output::NoMemory;
use net_base::Net;
use outcome_report::report;
use policy_base::Policy;
use scenarios::Scenario;
use settled_outcome::settle;
use std::alloc::Global;

/// The report of what the configuration that is compiled settles to under the failures of a scenario.
pub struct ReplayCommand;

impl Answer for ReplayCommand {
    ghost use Rattle.report_jobs.specs.Replayed.{WritesReport};

    type Asked = Scenario;

    ghost writes = { WritesReport };

    fn answer(
        alloc: Global,
        net: &Net,
        policy: &Policy,
        evidence: &Evidence,
        scenario: &Scenario,
    ) -> Result<Vec<u8>, NoMemory> {
        let outcome = settle(alloc, net, policy, evidence, scenario)?;
        report(alloc, net, policy, evidence, scenario, &outcome)
    }
}
