//! The trace of events.
ghost use Rattle.std.specs.Prelude.{IfOk};
ghost use Rattle.policy_base.specs.Policies.{IsPolicyOf, policy_of};
ghost use Rattle.evidence_law.specs.Passes.{Passes};
ghost use Rattle.trace_report.specs.Trace.{IsTraceOf};

use crate::happening::happen;
use crate::reporting::trace_report;
use config_base::Config;
use event_base::Event;
use event_core::opening;
use evidence_base::Evidence;
use input_output::NoMemory;
use net_base::{Net, Prefix};
use policy_base::Policy;
use std::alloc::Global;

/// The trace of events on a configured network, for one prefix: it begins with the world in which nothing has been delivered yet.
pub fn trace(
    alloc: Global,
    net: &Net,
    policy: &Policy,
    config: &Config,
    evidence: &Evidence,
    prefix: Prefix,
    events: &[Event],
) -> Result<Vec<u8>, NoMemory>
    requires fits { IsPolicyOf net.now (policy_of policy.now) }
    requires passes { Passes net.now (policy_of policy.now) config.now evidence.now.cases }
    ensures { IfOk result (λ text. IsTraceOf net.now (policy_of policy.now) config.now prefix events.now text.items) }
{
    let mut world = opening(alloc, net, policy, config, prefix)?;
    let refused = happen(alloc, &mut world, events)?;
    trace_report(alloc, net, policy, evidence, prefix, &world, &refused)
}
