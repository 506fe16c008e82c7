//! The command `explain`.
ghost use Rattle.std.specs.Prelude.{◌<◌, length};
ghost use Rattle.policy_base.specs.Policies.{policy_of};
ghost use Rattle.policy_base.specs.CaseNumbers.{OriginsAreRouters};
ghost use Rattle.compile_jobs.specs.Explained.{SaysOfPolicy};
ghost use Rattle.input_texts.specs.Texts.{OfTexts};
ghost use Rattle.run_base.specs.Said.{IsGiven, said};

use compile_core::{CompileRefusal, compiled_evidence};
use input_texts::{net_of, policy_for};
use net_base::Net;
use policy_base::Policy;
use refusal_lines::{accepted_line, explanation};
use run_base::Stop;
use std::alloc::Global;

// That the policy is accepted, or why it is refused.
#[tactic(auto, using(crate::proofs::Showing::refusals_are_showable))]
fn policy_text(alloc: Global, net: &Net, policy: &Policy) -> Result<Vec<u8>, Stop>
    requires { OriginsAreRouters net.now policy.now.origins }
    ensures { IsGiven (SaysOfPolicy net.now (policy_of policy.now)) (said result) }
{
    match compiled_evidence(alloc, net, policy) {
        Ok(_) => Ok(accepted_line(alloc)?),
        Err(CompileRefusal::NoMemory) => Err(Stop::NoMemory),
        Err(refusal) => Ok(explanation(alloc, net, &refusal)?),
    }
}

/// What the texts of a topology and of a policy come to: that the policy is accepted, or why it is refused.
#[tactic(auto, unfolding(input_texts::specs::Texts::OfTexts))]
pub fn explain_texts(alloc: Global, topology: &[u8], policy: &[u8]) -> Result<Vec<u8>, Stop>
    requires { length policy.now < 4294967295 }
    ensures { IsGiven (OfTexts SaysOfPolicy topology.now policy.now) (said result) }
{
    let net = net_of(alloc, topology)?;
    let policy = policy_for(alloc, &net, policy)?;
    policy_text(alloc, &net, &policy)
}
