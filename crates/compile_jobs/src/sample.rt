//! The command `sample`.
ghost use Rattle.std.specs.Prelude.{◌≡◌};
ghost use Rattle.policy_base.specs.CaseNumbers.{OriginsAreRouters};
ghost use Rattle.policy_base.specs.Policies.{policy_of};
ghost use Rattle.sample_network.specs.Network.{IsSampleNumber, sample_net};
ghost use Rattle.sample_network.specs.SamplePolicy.{sample_policy};
ghost use Rattle.compile_jobs.specs.Sampled.{SaysOfNumber};
ghost use Rattle.run_base.specs.Said.{IsGiven, said};

use crate::pairs::compiled_evidence_for;
use evidence_summary::summary;
use input_texts::{net_of, policy_for};
use net_base::Net;
use policy_base::Policy;
use run_base::Stop;
use sample_network::{SampleFault, sample};
use std::alloc::Global;

// The summary of what is compiled from the policy, or why the policy is refused.
fn summary_text(alloc: Global, leaves: u16, net: &Net, policy: &Policy) -> Result<Vec<u8>, Stop>
    requires net { net.now ≡ sample_net leaves }
    requires policy { policy_of policy.now ≡ sample_policy leaves }
    requires routers { OriginsAreRouters net.now policy.now.origins }
    ensures { IsGiven (SaysOfNumber leaves) (said result) }
{
    let evidence = compiled_evidence_for(alloc, net, policy)?;
    Ok(summary(alloc, leaves, net, evidence.cases.as_slice())?)
}

/// What the number of a sample comes to: both texts are made and read, and what is compiled is told in numbers.
pub fn sample_summary(alloc: Global, leaves: u16) -> Result<Vec<u8>, Stop>
    requires { IsSampleNumber leaves }
    ensures { IsGiven (SaysOfNumber leaves) (said result) }
{
    let (topology, policy) = match sample(alloc, leaves) {
        Ok(texts) => texts,
        Err(SampleFault::NoMemory) => return Err(Stop::NoMemory),
        // The number is one of a sample.
        Err(SampleFault::Range) => unreachable!(),
    };
    let net = net_of(alloc, &topology)?;
    let policy = policy_for(alloc, &net, &policy)?;
    summary_text(alloc, leaves, &net, &policy)
}
