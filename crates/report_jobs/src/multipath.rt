//! The command `multipath`.
use compile_jobs::{Answer, config_for};
use evidence_base::Evidence;
use input_output::NoMemory;
use multipath_report::{multipath, multipath_text};
use net_base::Net;
use policy_base::Policy;
use scenarios::{Scenario, Situation};
use settled_outcome::settle;
use std::alloc::Global;

/// Where packets go, if routers spread them over routes that tie, in what the configuration that is compiled settles to under the failures of a
/// scenario.
pub struct MultipathCommand;

impl Answer for MultipathCommand {
    ghost use Rattle.report_jobs.specs.Spread.{WritesMultipath};

    type Asked = Scenario;

    ghost writes = { WritesMultipath };

    fn answer(
        alloc: Global,
        net: &Net,
        policy: &Policy,
        evidence: &Evidence,
        scenario: &Scenario,
    ) -> Result<Vec<u8>, NoMemory> {
        let config = config_for(alloc, net, policy, evidence)?;
        let outcome = settle(alloc, net, policy, evidence, scenario)?;
        let situation = Situation::new(net, policy, &config, scenario, &outcome);
        let multipath = multipath(alloc, &situation)?;
        multipath_text(alloc, evidence, &situation, &multipath)
    }
}
