//! The command `lint`.
ghost use Rattle.std.specs.Prelude.{◌≡◌, ◌<◌, Ok, length};
ghost use Rattle.policy_base.specs.Policies.{policy_of};
ghost use Rattle.policy_parser.specs.Spelled.{spelled};
ghost use Rattle.run_base.specs.Said.{IsGiven, said};
ghost use Rattle.input_texts.specs.Texts.{OfTexts};
ghost use Rattle.judging_jobs.specs.Linted.{SaysOfPolicy};

use crate::lines::lint_text;
use input_texts::{net_of, policy_for};
use net_base::Net;
use policy_base::Policy;
use policy_lint::{LimitRefusal, compile_refusal, lint};
use refusal_lines::refusal_line;
use run_base::{Status, Stop};
use std::alloc::Global;

// The findings of the policy, which its text spells for the net, or why it is refused.
fn policy_text(alloc: Global, text: &[u8], net: &Net, policy: &Policy) -> Result<Vec<u8>, Stop>
    requires spelled { spelled net.now text.now ≡ Ok (policy_of policy.now) }
    requires short { length text.now < 4294967295 }
    ensures { IsGiven (SaysOfPolicy text.now net.now (policy_of policy.now)) (said result) }
{
    match lint(alloc, text, net, policy) {
        Ok(findings) => Ok(lint_text(alloc, &findings)?),
        Err(LimitRefusal::NoMemory) => Err(Stop::NoMemory),
        Err(refusal) => {
            let line = refusal_line(alloc, net, &compile_refusal(refusal))?;
            Err(Stop::Line(Status::Refused, line))
        }
    }
}

/// What the texts of a topology and of a policy come to: the lines of the policy's findings, or why the run stops.
#[tactic(auto, unfolding(input_texts::specs::Texts::OfTexts))]
pub fn lint_texts(alloc: Global, topology: &[u8], policy: &[u8]) -> Result<Vec<u8>, Stop>
    requires { length policy.now < 4294967295 }
    ensures { IsGiven (OfTexts (SaysOfPolicy policy.now) topology.now policy.now) (said result) }
{
    let net = net_of(alloc, topology)?;
    let read = policy_for(alloc, &net, policy)?;
    policy_text(alloc, policy, &net, &read)
}
