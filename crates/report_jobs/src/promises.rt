//! The command `promises`.
ghost use Rattle.std.specs.Prelude.{◌<◌, length};
ghost use Rattle.policy_base.specs.Policies.{IsPolicyOf, policy_of};
ghost use Rattle.policy_base.specs.CaseNumbers.{OriginsAreRouters};
ghost use Rattle.report_jobs.specs.Promised.{SaysOfPolicy};
ghost use Rattle.input_texts.specs.Texts.{OfTexts};
ghost use Rattle.run_base.specs.Said.{IsGiven, said};

use compile_jobs::compiled_evidence_for;
use input_texts::{net_of, policy_for};
use net_base::{Net, known_net};
use policy_base::Policy;
use promises_text::promises_text;
use run_base::Stop;
use std::alloc::Global;

// What the policy promises, by the evidence for what is compiled from it, or why it is refused.
fn promised_text(alloc: Global, net: &Net, policy: &Policy) -> Result<Vec<u8>, Stop>
    requires routers { OriginsAreRouters net.now policy.now.origins }
    requires fits { IsPolicyOf net.now (policy_of policy.now) }
    ensures { IsGiven (SaysOfPolicy net.now (policy_of policy.now)) (said result) }
{
    known_net(net);
    let evidence = compiled_evidence_for(alloc, net, policy)?;
    let cases = evidence.cases.as_slice();
    Ok(promises_text(alloc, net, policy, cases)?)
}

/// What the texts of a topology and of a policy come to: what the policy promises for each of its cases, to whom, and to whom not, or why
/// the run stops.
#[tactic(auto, unfolding(input_texts::specs::Texts::OfTexts))]
pub fn promises_texts(alloc: Global, topology: &[u8], policy: &[u8]) -> Result<Vec<u8>, Stop>
    requires { length policy.now < 4294967295 }
    ensures { IsGiven (OfTexts SaysOfPolicy topology.now policy.now) (said result) }
{
    let net = net_of(alloc, topology)?;
    let policy = policy_for(alloc, &net, policy)?;
    promised_text(alloc, &net, &policy)
}
