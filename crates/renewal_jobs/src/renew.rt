//! The texts of what is renewed.
ghost use Rattle.std.specs.Prelude.{◌<◌, length};
ghost use Rattle.net_base.specs.Network.{PlainNet};
ghost use Rattle.policy_base.specs.Policies.{policy_of};
ghost use Rattle.policy_base.specs.CaseNumbers.{OriginsAreRouters};
ghost use Rattle.compile_core.specs.Compiling.{IsEvidenceOfMade};
ghost use Rattle.evidence_renewal.specs.Renewed.{IsRenewedEvidence};
ghost use Rattle.input_texts.specs.Texts.{OfTexts};
ghost use Rattle.renewal_jobs.specs.Renewing.{IsRenewedOr, SaysOfOld, SaysOfThird};
ghost use Rattle.run_base.specs.Said.{IsGiven, said};

use crate::lines::run_out_line;
use compile_jobs::{Part, compiled_evidence_for};
use config_base::Config;
use config_text::print_config;
use evidence_base::Evidence;
use evidence_renewal::{RenewalFault, renewed_config, renewed_evidence};
use evidence_text::print_evidence;
use input_texts::{config_for, net_of, policy_for};
use net_base::{Net, known_net};
use policy_base::Policy;
use run_base::{Status, Stop};
use std::alloc::Global;

// The evidence that is compiled from the policy, renewed, or why the run stops.
fn renewed_for(alloc: Global, net: &Net, policy: &Policy, old: &Config) -> Result<Evidence, Stop>
    requires { OriginsAreRouters net.now policy.now.origins }
    ensures { IsRenewedOr net.now (policy_of policy.now) old.now result }
{
    let compiled = compiled_evidence_for(alloc, net, policy)?;
    match renewed_evidence(alloc, &compiled, old) {
        Ok(evidence) => Ok(evidence),
        Err(RenewalFault::NoMemory) => Err(Stop::NoMemory),
        Err(RenewalFault::PrefsRunOut(top)) => {
            let line = run_out_line(alloc, top)?;
            Err(Stop::Line(Status::Refused, line))
        }
    }
}

// The text of this part of what is renewed, or why the run stops.
fn renewed_text(
    alloc: Global,
    part: Part,
    net: &Net,
    policy: &Policy,
    old: &Config,
) -> Result<Vec<u8>, Stop>
    requires { OriginsAreRouters net.now policy.now.origins }
    ensures { IsGiven (SaysOfOld part net.now (policy_of policy.now) old.now) (said result) }
{
    known_net(net);
    let evidence = renewed_for(alloc, net, policy, old)?;
    match part {
        Part::Config => {
            let config = renewed_config(alloc, net, policy, &evidence)?;
            Ok(print_config(alloc, &config)?)
        }
        Part::Evidence => Ok(print_evidence(alloc, &evidence)?),
    }
}

// What the text of the old configuration comes to.
fn old_text(
    alloc: Global,
    part: Part,
    net: &Net,
    policy: &Policy,
    old: &[u8],
) -> Result<Vec<u8>, Stop>
    requires routers { OriginsAreRouters net.now policy.now.origins }
    requires short { length old.now < 4294967295 }
    ensures { IsGiven (SaysOfThird part old.now net.now (policy_of policy.now)) (said result) }
{
    let old = config_for(alloc, old)?;
    renewed_text(alloc, part, net, policy, &old)
}

/// What the texts of a topology, of a policy and of an old configuration come to: the text of this part of what is renewed, or why the
/// run stops.
#[tactic(auto, unfolding(input_texts::specs::Texts::OfTexts))]
pub fn renewal_texts(
    alloc: Global,
    part: Part,
    topology: &[u8],
    policy: &[u8],
    old: &[u8],
) -> Result<Vec<u8>, Stop>
    requires policy { length policy.now < 4294967295 }
    requires old { length old.now < 4294967295 }
    ensures { IsGiven (OfTexts (SaysOfThird part old.now) topology.now policy.now) (said result) }
{
    let net = net_of(alloc, topology)?;
    let policy = policy_for(alloc, &net, policy)?;
    old_text(alloc, part, &net, &policy, old)
}
