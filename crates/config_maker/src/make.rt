//! Configurations.
ghost use Rattle.std.specs.Prelude.{IfOk, map};
ghost use Rattle.policy_base.specs.Policies.{policy_of};
ghost use Rattle.evidence_base.specs.Made.{PlainCaseEvidence, AreTags, IsConfigOf};
ghost use Rattle.config_maker.specs.Conditions.{AreClasses, AreSingle};

use crate::blocks::routers_of;
use crate::classes::classes_of;
use crate::gather::{all_announced, all_hops};
use crate::hop::{settle_announced, settle_hops};
use config_base::Config;
use evidence_base::CaseEvidence;
use input_output::NoMemory;
use net_base::Net;
use policy_base::Policy;
use std::alloc::Global;

/// The configuration of cases, each with its graph and a number and a tag for each node: one class for each case, and one
/// block for each router.
pub fn config_of(
    alloc: Global,
    net: &Net,
    policy: &Policy,
    evidence: &[CaseEvidence],
) -> Result<Config, NoMemory>
    requires classes { AreClasses (policy_of policy.now) (map (λ (c : PlainCaseEvidence). c.case) evidence.now) }
    requires single { AreSingle net.now evidence.now }
    requires differ { AreTags net.now evidence.now }
    ensures { IfOk result (λ config. IsConfigOf net.now (policy_of policy.now) evidence.now config) }
{
    let mut hops = all_hops(alloc, evidence)?;
    let locations = net.routers().len() + net.peers().len();
    settle_hops(alloc, &mut hops, locations as u16)?;
    let mut announced = all_announced(alloc, evidence)?;
    settle_announced(&mut announced);
    let classes = classes_of(alloc, policy, evidence)?;
    let routers = routers_of(alloc, net, &hops, &announced)?;
    Ok(Config::new(classes, routers))
}
