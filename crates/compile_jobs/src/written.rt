//! The commands `compile` and `evidence`: a part of what is compiled is written.
ghost use Rattle.std.specs.Prelude.{◌<◌, length};
ghost use Rattle.policy_base.specs.Policies.{policy_of};
ghost use Rattle.policy_base.specs.CaseNumbers.{OriginsAreRouters};
ghost use Rattle.compile_jobs.specs.Written.{SaysOfPart};
ghost use Rattle.input_texts.specs.Texts.{OfTexts};
ghost use Rattle.run_base.specs.Said.{IsGiven, said};

use crate::pairs::{compiled_evidence_for, compiled_for};
use config_text::print_config;
use evidence_text::print_evidence;
use input_texts::{net_of, policy_for};
use net_base::Net;
use policy_base::Policy;
use run_base::Stop;
use std::alloc::Global;

/// A part of what is compiled from a policy.
#[derive(Clone, Copy, Debug, PartialEq, Eq)]
pub enum Part {
    /// The configuration.
    Config,
    /// The evidence for it.
    Evidence,
}

// The text of this part of what is compiled from the policy, or why the policy is refused.
fn part_text(alloc: Global, part: Part, net: &Net, policy: &Policy) -> Result<Vec<u8>, Stop>
    requires { OriginsAreRouters net.now policy.now.origins }
    ensures { IsGiven (SaysOfPart part net.now (policy_of policy.now)) (said result) }
{
    match part {
        Part::Config => {
            let compiled = compiled_for(alloc, net, policy)?;
            Ok(print_config(alloc, &compiled.config)?)
        }
        Part::Evidence => {
            let evidence = compiled_evidence_for(alloc, net, policy)?;
            Ok(print_evidence(alloc, &evidence)?)
        }
    }
}

/// What the texts of a topology and of a policy come to: the text of this part of what is compiled, or why the run stops.
#[tactic(auto, unfolding(input_texts::specs::Texts::OfTexts))]
pub fn written_texts(
    alloc: Global,
    part: Part,
    topology: &[u8],
    policy: &[u8],
) -> Result<Vec<u8>, Stop>
    requires { length policy.now < 4294967295 }
    ensures { IsGiven (OfTexts (SaysOfPart part) topology.now policy.now) (said result) }
{
    let net = net_of(alloc, topology)?;
    let policy = policy_for(alloc, &net, policy)?;
    part_text(alloc, part, &net, &policy)
}
