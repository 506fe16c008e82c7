//! The ranks that the walks of each statement's cases have.
ghost use Rattle.std.specs.Prelude.{◌≡◌, ◌+◌, ◌<◌, ◌^◌, IfErr, IfOk, OnOk, length};
ghost use Rattle.policy_base.specs.declared.limits.TheConstants.{ALTERNATIVES};
ghost use Rattle.policy_base.specs.Cases.{case_list};
ghost use Rattle.policy_base.specs.Policies.{policy_of};
ghost use Rattle.policy_base.specs.CaseNumbers.{OriginsAreRouters};
ghost use Rattle.case_graphs.specs.Limits.{AreAllWithin, IsRefused};
ghost use Rattle.lint_ranks.specs.Marks.{AreReached};

use crate::marks::mark_ranks;
use bit_rows::Rows;
use case_graphs::{LimitRefusal, case_graphs, prefix_case};
use net_base::{Net, known_net};
use policy_base::limits::ALTERNATIVES;
use policy_base::{CaseList, Policy};
use std::alloc::Global;

/// For each statement, by its number from 1, the ranks that permitted walks of its cases have, as the bits of a row; or which
/// limit the first case passes that passes one. Row 0 and bit 0 stay clear.
pub fn reached_ranks(
    alloc: Global,
    net: &Net,
    policy: &Policy,
    cases: &CaseList,
) -> Result<Rows, LimitRefusal>
    requires cases { cases.now.cases ≡ case_list net.now (policy_of policy.now) }
    requires few { length cases.now.cases < 2 ^ 32 }
    requires routers { OriginsAreRouters net.now policy.now.origins }
    ensures rows { IfOk result (λ ranks. ranks.count ≡ length policy.now.statements + 1) }
    ensures bits { IfOk result (λ ranks. ranks.bits ≡ ALTERNATIVES + 1) }
    ensures reached { IfOk result (AreReached net.now (policy_of policy.now)) }
    ensures within { OnOk result (AreAllWithin net.now (policy_of policy.now)) }
    ensures refused { IfErr result (IsRefused net.now (policy_of policy.now)) }
{
    known_net(net);
    let graphs = case_graphs(alloc, net, policy, cases)?;
    let rows = policy.statements().len() as u32 + 1;
    let mut ranks = Rows::new(alloc, rows, ALTERNATIVES as u32 + 1)?;
    let list = cases.cases.as_slice();
    for place in 0..list.len() {
        let case = &list[place];
        let graph = graphs.graph_for(&prefix_case(case));
        mark_ranks(&mut ranks, case.statement, graph.nodes());
    }
    Ok(ranks)
}
