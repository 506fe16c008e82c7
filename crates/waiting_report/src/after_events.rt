//! What waits after events.
ghost use Rattle.std.specs.Prelude.{IfOk};
ghost use Rattle.policy_base.specs.Policies.{policy_of};
ghost use Rattle.waiting_report.specs.Waiting.{IsWaitingAfter};

use crate::told::told;
use config_base::Config;
use event_base::Event;
use event_core::opening;
use input_output::NoMemory;
use net_base::{Net, Prefix, known_net};
use policy_base::Policy;
use std::alloc::Global;
use trace_report::happen;

/// Which messages wait after events on a configured network, for one prefix: it begins with the world in which nothing has been
/// delivered yet, and events that are refused are passed over. A line for each message, by the links in order, from the first end to
/// the second and then back, the first message first: the path that it announces, or that it withdraws. Then whether none waits.
pub fn waiting(
    alloc: Global,
    net: &Net,
    policy: &Policy,
    config: &Config,
    prefix: Prefix,
    events: &[Event],
) -> Result<Vec<u8>, NoMemory>
    ensures { IfOk result (λ text. IsWaitingAfter net.now (policy_of policy.now) config.now prefix events.now text.items) }
{
    known_net(net);
    let mut world = opening(alloc, net, policy, config, prefix)?;
    happen(alloc, &mut world, events)?;
    told(alloc, world)
}
