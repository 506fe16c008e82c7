//! Where packets go in an outcome.
ghost use Rattle.std.specs.Prelude.{IfOk};
ghost use Rattle.policy_base.specs.Policies.{policy_of};
ghost use Rattle.scenarios.specs.Scenarios.{failures_of};
ghost use Rattle.scenarios.specs.Situations.{IsSituation};
ghost use Rattle.multipath_law.specs.Carried.{IsMultipath};

use crate::idle::{idle_among, live_links};
use crate::members::member_sets;
use multipath_law::Multipath;
use net_base::{List, known_net};
use scenarios::Situation;
use std::alloc::{AllocError, Global};

/// Where packets go in an outcome if routers spread them over their multipath sets: the sets, the live links over which none goes, and how many
/// links live.
pub fn multipath(alloc: Global, situation: &Situation<'_>) -> Result<Multipath, AllocError>
    requires { IsSituation situation.now }
    ensures { IfOk result (IsMultipath situation.now.net.now (policy_of situation.now.policy.now) situation.now.config.now (failures_of situation.now.scenario.now)
        situation.now.scenario.now.prefix situation.now.outcome.now.routes) }
{
    known_net(situation.net);
    let sets = member_sets(alloc, situation)?;
    let links = live_links(alloc, situation)?;
    let live = links.as_slice();
    let idle = idle_among(alloc, situation, &sets, live)?;
    Ok(Multipath {
        sets: List::from_vec(sets),
        idle,
        live: live.len(),
    })
}
