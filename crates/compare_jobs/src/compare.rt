//! The comparison of two texts of policies.
ghost use Rattle.std.specs.Prelude.{◌<◌, length};
ghost use Rattle.policy_base.specs.Policies.{IsPolicyOf, policy_of};
ghost use Rattle.run_base.specs.Said.{IsGiven, said};
ghost use Rattle.compare_jobs.specs.Compared.{SaysOfPair, SaysOfPolicies, SaysOfThree};

use crate::lines::refusal_line;
use compare_report::compare_text;
use comparison_maker::compare_policies;
use input_texts::{net_of, policy_named};
use net_base::Net;
use policy_base::Policy;
use run_base::{Status, Stop};
use std::alloc::Global;

// What the new policy changes beside the old one, or why the two aren't compared.
fn policies_text(alloc: Global, net: &Net, old: &Policy, new: &Policy) -> Result<Vec<u8>, Stop>
    requires old { IsPolicyOf net.now (policy_of old.now) }
    requires new { IsPolicyOf net.now (policy_of new.now) }
    ensures { IsGiven (SaysOfPolicies net.now (policy_of old.now) (policy_of new.now)) (said result) }
{
    match compare_policies(alloc, net, old, new) {
        Ok(comparison) => Ok(compare_text(alloc, net, old, new, comparison.pairs.as_slice())?),
        Err(refusal) => {
            let line = refusal_line(alloc, net, refusal)?;
            Err(Stop::Line(Status::Refused, line))
        }
    }
}

// What the texts of the two policies come to.
fn pair_text(alloc: Global, net: &Net, old: &[u8], new: &[u8]) -> Result<Vec<u8>, Stop>
    requires old { length old.now < 4294967295 }
    requires new { length new.now < 4294967295 }
    ensures { IsGiven (SaysOfPair old.now new.now net.now) (said result) }
{
    let old = policy_named(alloc, b"old policy", net, old)?;
    let new = policy_named(alloc, b"new policy", net, new)?;
    policies_text(alloc, net, &old, &new)
}

/// What the texts of a topology, of an old policy and of a new one come to: the text of what the new policy changes, or why the run stops.
pub fn compare_texts(
    alloc: Global,
    topology: &[u8],
    old: &[u8],
    new: &[u8],
) -> Result<Vec<u8>, Stop>
    requires old { length old.now < 4294967295 }
    requires new { length new.now < 4294967295 }
    ensures { IsGiven (SaysOfThree topology.now old.now new.now) (said result) }
{
    let net = net_of(alloc, topology)?;
    pair_text(alloc, &net, old, new)
}
