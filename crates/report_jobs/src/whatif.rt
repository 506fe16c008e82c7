//! The command `whatif`.
use compile_jobs::{Answer, config_for};
use evidence_base::{Evidence, class_of};
use impact_report::what_if_text;
use input_output::NoMemory;
use net_base::Net;
use policy_base::Policy;
use scenarios::{Scenario, Situation};
use settled_outcome::settle;
use std::alloc::Global;
use whatif_report::what_if;

/// What each cut besides the failures of a scenario changes of the best ranks of the sources that the policy claims for its prefix, and
/// how many routers it moves to another route, and to another multipath set.
pub struct WhatIfCommand;

impl Answer for WhatIfCommand {
    ghost use Rattle.report_jobs.specs.WhatIfs.{WritesWhatIf};

    type Asked = Scenario;

    ghost writes = { WritesWhatIf };

    fn answer(
        alloc: Global,
        net: &Net,
        policy: &Policy,
        evidence: &Evidence,
        scenario: &Scenario,
    ) -> Result<Vec<u8>, NoMemory> {
        let config = config_for(alloc, net, policy, evidence)?;
        let outcome = settle(alloc, net, policy, evidence, scenario)?;
        let situation = Situation::new(net, policy, &config, scenario, &outcome);
        let what_if = what_if(alloc, evidence, &situation)?;
        let class = class_of(policy, evidence, scenario.prefix);
        what_if_text(alloc, net, scenario.prefix, class, &what_if)
    }
}
