//! The command `check`.
ghost use Rattle.std.specs.Prelude.{◌<◌, length};
ghost use Rattle.policy_base.specs.Policies.{policy_of};
ghost use Rattle.policy_base.specs.CaseNumbers.{OriginsAreRouters};
ghost use Rattle.run_base.specs.Said.{IsGiven, said};
ghost use Rattle.input_texts.specs.Texts.{OfTexts, OfPairTexts};
ghost use Rattle.judging_jobs.specs.Checked.{OfConfigText, SaysOfPair, SaysOfPolicy};

use crate::verdict_lines::{fails_line, holds_line};
use evidence_base::CaseEvidence;
use evidence_check::check_text;
use evidence_verdicts::Verdict;
use input_texts::{config_for, evidence_for, net_of, policy_for};
use net_base::Net;
use policy_base::Policy;
use run_base::Stop;
use std::alloc::Global;

// What the text of a configuration comes to with evidence. It is read only where the evidence doesn't hold with it, so that a fault
// of the text is told first.
fn judged_text(
    alloc: Global,
    net: &Net,
    policy: &Policy,
    config: &[u8],
    evidence: &[CaseEvidence],
) -> Result<Vec<u8>, Stop>
    requires routers { OriginsAreRouters net.now policy.now.origins }
    requires short { length config.now < 4294967295 }
    ensures { IsGiven (OfConfigText (SaysOfPair net.now (policy_of policy.now)) config.now evidence.now) (said result) }
{
    match check_text(alloc, net, policy, config, evidence)? {
        Verdict::Holds => Ok(holds_line(alloc)?),
        Verdict::Fails(rule, shown) => {
            let _config = config_for(alloc, config)?;
            Err(Stop::Failing(fails_line(alloc, rule, shown)?))
        }
    }
}

// What the texts of a configuration and of evidence come to. The evidence is read first, since the configuration mostly needn't
// be read; but a fault of the configuration is told before one of the evidence.
#[tactic(auto, unfolding(input_texts::specs::Texts::OfPairTexts))]
fn pair_text(
    alloc: Global,
    net: &Net,
    policy: &Policy,
    config: &[u8],
    evidence: &[u8],
) -> Result<Vec<u8>, Stop>
    requires routers { OriginsAreRouters net.now policy.now.origins }
    requires short { length config.now < 4294967295 }
    ensures { IsGiven (OfPairTexts (SaysOfPair net.now (policy_of policy.now)) config.now evidence.now) (said result) }
{
    match evidence_for(alloc, evidence) {
        Ok(evidence) => judged_text(alloc, net, policy, config, evidence.cases.as_slice()),
        Err(stop) => {
            let _config = config_for(alloc, config)?;
            Err(stop)
        }
    }
}

/// What the texts of a topology, of a policy, of a configuration and of evidence come to: that the evidence holds, or why the run
/// stops. Evidence that fails stops it.
#[tactic(auto, unfolding(input_texts::specs::Texts::OfTexts))]
pub fn check_texts(
    alloc: Global,
    topology: &[u8],
    policy: &[u8],
    config: &[u8],
    evidence: &[u8],
) -> Result<Vec<u8>, Stop>
    requires policy { length policy.now < 4294967295 }
    requires config { length config.now < 4294967295 }
    ensures { IsGiven (OfTexts (SaysOfPolicy config.now evidence.now) topology.now policy.now) (said result) }
{
    let net = net_of(alloc, topology)?;
    let policy = policy_for(alloc, &net, policy)?;
    pair_text(alloc, &net, &policy, config, evidence)
}
