//! The texts of what may take over with what stays.
ghost use Rattle.std.specs.Prelude.{◌<◌, length};
ghost use Rattle.policy_base.specs.Policies.{policy_of};
ghost use Rattle.policy_base.specs.CaseNumbers.{OriginsAreRouters};
ghost use Rattle.input_texts.specs.Texts.{OfTexts};
ghost use Rattle.renewal_jobs.specs.Reusing.{IsReuseOr, SaysOfPair, SaysOfPairTexts};
ghost use Rattle.run_base.specs.Said.{IsGiven, said};

use crate::lines::{other_line, run_out_line};
use compile_jobs::{Part, compiled_evidence_for};
use config_base::Config;
use config_text::print_config;
use evidence_base::Evidence;
use evidence_reuse::{Reuse, ReuseFault, reused};
use evidence_text::print_evidence;
use input_texts::{config_for, evidence_for, net_of, policy_for};
use net_base::Net;
use policy_base::Policy;
use run_base::{Status, Stop};
use std::alloc::Global;

// What is compiled from the policy, with what stays, or why the run stops.
fn reuse_for(
    alloc: Global,
    net: &Net,
    policy: &Policy,
    old: &Config,
    evidence: &Evidence,
) -> Result<Reuse, Stop>
    requires { OriginsAreRouters net.now policy.now.origins }
    ensures { IsReuseOr net.now (policy_of policy.now) old.now evidence.now.cases result }
{
    let compiled = compiled_evidence_for(alloc, net, policy)?;
    match reused(alloc, net, policy, &compiled, old, evidence) {
        Ok(reuse) => Ok(reuse),
        Err(ReuseFault::NoMemory) => Err(Stop::NoMemory),
        Err(ReuseFault::PrefsRunOut(top)) => {
            let line = run_out_line(alloc, top)?;
            Err(Stop::Line(Status::Refused, line))
        }
        Err(ReuseFault::OtherEvidence) => {
            let line = other_line(alloc)?;
            Err(Stop::Line(Status::Refused, line))
        }
    }
}

// The text of this part of it, or why the run stops.
fn reuse_text(
    alloc: Global,
    part: Part,
    net: &Net,
    policy: &Policy,
    old: &Config,
    evidence: &Evidence,
) -> Result<Vec<u8>, Stop>
    requires { OriginsAreRouters net.now policy.now.origins }
    ensures { IsGiven (SaysOfPair part net.now (policy_of policy.now) old.now evidence.now.cases) (said result) }
{
    let reuse = reuse_for(alloc, net, policy, old, evidence)?;
    match part {
        Part::Config => Ok(print_config(alloc, &reuse.config)?),
        Part::Evidence => Ok(print_evidence(alloc, &reuse.evidence)?),
    }
}

// What the texts of the old configuration and of its evidence come to.
#[tactic(auto, unfolding(input_texts::specs::Texts::OfPairTexts))]
fn pair_text(
    alloc: Global,
    part: Part,
    net: &Net,
    policy: &Policy,
    old: &[u8],
    evidence: &[u8],
) -> Result<Vec<u8>, Stop>
    requires routers { OriginsAreRouters net.now policy.now.origins }
    requires short { length old.now < 4294967295 }
    ensures { IsGiven (SaysOfPairTexts part old.now evidence.now net.now (policy_of policy.now)) (said result) }
{
    let old = config_for(alloc, old)?;
    let evidence = evidence_for(alloc, evidence)?;
    reuse_text(alloc, part, net, policy, &old, &evidence)
}

/// What the texts of a topology, of a policy, and of an old configuration with its evidence come to: the text of this part of what may take over
/// with what stays, or why the run stops.
#[tactic(auto, unfolding(input_texts::specs::Texts::OfTexts))]
pub fn reuse_texts(
    alloc: Global,
    part: Part,
    topology: &[u8],
    policy: &[u8],
    old: &[u8],
    evidence: &[u8],
) -> Result<Vec<u8>, Stop>
    requires policy { length policy.now < 4294967295 }
    requires old { length old.now < 4294967295 }
    ensures { IsGiven (OfTexts (SaysOfPairTexts part old.now evidence.now) topology.now policy.now) (said result) }
{
    let net = net_of(alloc, topology)?;
    let policy = policy_for(alloc, &net, policy)?;
    pair_text(alloc, part, &net, &policy, old, evidence)
}
