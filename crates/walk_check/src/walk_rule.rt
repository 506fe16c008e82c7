//! Whether a graph has exactly the walks that can still be permitted.
ghost use Rattle.std.specs.Prelude.{IfNone, IfOk, IfSome};
ghost use Rattle.net_base.specs.Sets.{holds};
ghost use Rattle.policy_base.specs.Policies.{PlainStatement};
ghost use Rattle.evidence_law.specs.Faithful.{HasWalks, IsFaithful};
ghost use Rattle.walk_check.specs.Alike.{AreAlike, IsSingleStepped};

use crate::comparing::{WalkClasses, alike};
use crate::ended::are_ended;
use crate::formed::is_well_formed;
use graph_base::Graph;
use input_output::NoMemory;
use net_base::Net;
use policy_base::Case;
use std::alloc::Global;

/// The classes by which a graph has exactly the walks of a case that can still be permitted, or None where it has other walks
/// or lacks some, isn't well formed, or has a node at which no walk ends. `live` is a faithful graph of the case.
pub fn walks(
    alloc: Global,
    net: &Net,
    case: &Case,
    live: &Graph,
    graph: &Graph,
) -> Result<Option<WalkClasses>, NoMemory>
    requires { IsSingleStepped live.now }
    ensures alike { IfOk result (λ o. IfSome o (λ classes. AreAlike live.now graph.now classes)) }
    ensures single { IfOk result (λ o. IfSome o (λ _. IsSingleStepped graph.now)) }
    ensures holds { (s : PlainStatement) → IsFaithful net.now s (holds case.now.origins) case.now.external live.now
        → IfOk result (λ o. IfSome o (λ _. HasWalks net.now s (holds case.now.origins) case.now.external graph.now)) }
    ensures fails { (s : PlainStatement) → IsFaithful net.now s (holds case.now.origins) case.now.external live.now
        → IfOk result (λ o. IfNone o (¬ HasWalks net.now s (holds case.now.origins) case.now.external graph.now)) }
{
    if !is_well_formed(alloc, net, case, graph)? {
        return Ok(None);
    }
    if !are_ended(alloc, graph)? {
        return Ok(None);
    }
    alike(alloc, live, graph)
}
