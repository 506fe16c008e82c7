//! The command `waiting`.
use compile_jobs::{Answer, config_for};
use event_reader::Events;
use evidence_base::Evidence;
use input_output::NoMemory;
use net_base::Net;
use policy_base::Policy;
use std::alloc::Global;
use waiting_report::waiting;

/// Which messages wait after events, under the configuration that is compiled.
pub struct WaitingCommand;

impl Answer for WaitingCommand {
    ghost use Rattle.report_jobs.specs.Waits.{WritesWaiting};

    type Asked = Events;

    ghost writes = { WritesWaiting };

    fn answer(
        alloc: Global,
        net: &Net,
        policy: &Policy,
        evidence: &Evidence,
        events: &Events,
    ) -> Result<Vec<u8>, NoMemory> {
        let config = config_for(alloc, net, policy, evidence)?;
        let happened = events.events.as_slice();
        waiting(alloc, net, policy, &config, events.prefix, happened)
    }
}
