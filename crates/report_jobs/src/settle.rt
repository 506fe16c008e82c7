//! The command `settle`.
use compile_jobs::{Answer, config_for};
use event_reader::Events;
use evidence_base::Evidence;
use input_output::NoMemory;
use net_base::Net;
use policy_base::Policy;
use settle_report::settle_events;
use std::alloc::Global;

/// How the network comes to rest after events, under the configuration that is compiled.
pub struct SettleCommand;

impl Answer for SettleCommand {
    ghost use Rattle.report_jobs.specs.Settles.{WritesSettlement};

    type Asked = Events;

    ghost writes = { WritesSettlement };

    fn answer(
        alloc: Global,
        net: &Net,
        policy: &Policy,
        evidence: &Evidence,
        events: &Events,
    ) -> Result<Vec<u8>, NoMemory> {
        let config = config_for(alloc, net, policy, evidence)?;
        let happened = events.events.as_slice();
        settle_events(
            alloc,
            net,
            policy,
            &config,
            evidence,
            events.prefix,
            happened,
        )
    }
}
