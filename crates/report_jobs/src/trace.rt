//! The command `trace`.
use compile_jobs::{Answer, config_for};
use event_reader::Events;
use evidence_base::Evidence;
use input_output::NoMemory;
use net_base::Net;
use policy_base::Policy;
use std::alloc::Global;
use trace_report::trace;

/// The trace of events under the configuration that is compiled.
pub struct TraceCommand;

impl Answer for TraceCommand {
    ghost use Rattle.report_jobs.specs.Traced.{WritesTrace};

    type Asked = Events;

    ghost writes = { WritesTrace };

    fn answer(
        alloc: Global,
        net: &Net,
        policy: &Policy,
        evidence: &Evidence,
        events: &Events,
    ) -> Result<Vec<u8>, NoMemory> {
        let config = config_for(alloc, net, policy, evidence)?;
        let happened = events.events.as_slice();
        trace(
            alloc,
            net,
            policy,
            &config,
            evidence,
            events.prefix,
            happened,
        )
    }
}
