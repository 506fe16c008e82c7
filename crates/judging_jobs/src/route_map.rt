//! The command `routemap`.
ghost use Rattle.std.specs.Prelude.{◌<◌, length};
ghost use Rattle.policy_base.specs.Policies.{policy_of};
ghost use Rattle.policy_base.specs.CaseNumbers.{OriginsAreRouters};
ghost use Rattle.run_base.specs.Said.{IsGiven, said};
ghost use Rattle.input_texts.specs.Texts.{OfTexts};
ghost use Rattle.judging_jobs.specs.MapsJobs.{SaysOfPolicy};

use crate::maps::maps_text_of;
use compile_jobs::compiled_for;
use input_texts::{net_of, policy_for};
use net_base::Net;
use policy_base::Policy;
use run_base::Stop;
use std::alloc::Global;

// The text of the maps of the configuration that is compiled from the policy, or why the run stops.
fn policy_text(alloc: Global, net: &Net, policy: &Policy) -> Result<Vec<u8>, Stop>
    requires { OriginsAreRouters net.now policy.now.origins }
    ensures { IsGiven (SaysOfPolicy net.now (policy_of policy.now)) (said result) }
{
    let compiled = compiled_for(alloc, net, policy)?;
    maps_text_of(alloc, &compiled.config)
}

/// What the texts of a topology and of a policy come to: the text of the maps of the configuration that is compiled, or why
/// the run stops.
#[tactic(auto, unfolding(input_texts::specs::Texts::OfTexts))]
pub fn route_map_texts(alloc: Global, topology: &[u8], policy: &[u8]) -> Result<Vec<u8>, Stop>
    requires { length policy.now < 4294967295 }
    ensures { IsGiven (OfTexts SaysOfPolicy topology.now policy.now) (said result) }
{
    let net = net_of(alloc, topology)?;
    let policy = policy_for(alloc, &net, policy)?;
    policy_text(alloc, &net, &policy)
}
