//! The command `drain`.
use compile_jobs::Answer;
use drain_report::{drain, drain_text};
use evidence_base::{Evidence, class_of};
use input_output::NoMemory;
use net_base::Net;
use policy_base::Policy;
use scenarios::Scenario;
use settled_outcome::settle;
use std::alloc::Global;

/// The links and routers that carry nothing in what the configuration that is compiled settles to under the failures of a scenario.
pub struct DrainCommand;

impl Answer for DrainCommand {
    ghost use Rattle.report_jobs.specs.Drained.{WritesDrain};

    type Asked = Scenario;

    ghost writes = { WritesDrain };

    fn answer(
        alloc: Global,
        net: &Net,
        policy: &Policy,
        evidence: &Evidence,
        scenario: &Scenario,
    ) -> Result<Vec<u8>, NoMemory> {
        let outcome = settle(alloc, net, policy, evidence, scenario)?;
        let drain = drain(alloc, net, policy, evidence, scenario, &outcome)?;
        let class = class_of(policy, evidence, scenario.prefix);
        drain_text(alloc, net, scenario.prefix, class, &drain)
    }
}
