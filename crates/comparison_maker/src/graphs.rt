//! The graphs of the cases of two policies.
ghost use Rattle.std.specs.Prelude.{◌≡◌, ◌≤◌, IfErr, IfOk, OnOk};
ghost use Rattle.policy_base.specs.Policies.{IsPolicyOf, PlainPolicy, policy_of};
ghost use Rattle.net_base.specs.Network.{PlainNet};
ghost use Rattle.graph_base.specs.Graphs.{IsGraph};
ghost use Rattle.case_graphs.specs.Graphs.{AreCaseGraphs};
ghost use Rattle.case_graphs.specs.Limits.{AreAllWithin, IsRefused};
ghost use Rattle.comparison_maker.specs.Compared.{AreGraphsOfBoth, IsChangeFor, IsRefusedAt, refusal_for};
ghost use Rattle.comparison_maker.specs.Refusals.{HasSteps, IsRefusedFor};

use crate::laws::case_graphs_show_walks;
use crate::refusal::ComparisonRefusal;
use case_graphs::{CaseGraphs, LimitRefusal, case_graphs};
use compare_base::CasePair;
use graph_base::Graph;
use net_base::{Net, known_net};
use pair_changes::{ChangedPair, pair_change};
use pair_graph::PairFault;
use policy_base::{Policy, cases, known_policy};
use std::alloc::Global;

// What every graph keeps.
fn known_graph(graph: &Graph)
    ensures { IsGraph graph.now }
{
    let _nodes = graph.nodes();
}

// The graphs of a policy's cases, or which limit a case passes.
fn graphs_of(alloc: Global, net: &Net, policy: &Policy) -> Result<CaseGraphs, LimitRefusal>
    requires { IsPolicyOf net.now (policy_of policy.now) }
    ensures graphs { IfOk result (AreCaseGraphs net.now (policy_of policy.now)) }
    ensures within { OnOk result (AreAllWithin net.now (policy_of policy.now)) }
    ensures refused { IfErr result (IsRefused net.now (policy_of policy.now)) }
{
    let list = cases(alloc, net, policy)?;
    case_graphs(alloc, net, policy, &list)
}

// The refusal of a comparison where a case of the old policy passes a limit.
fn refusal_of_old(refusal: LimitRefusal) -> ComparisonRefusal
    ensures { (net : PlainNet) (old new : PlainPolicy) → IsRefused net old refusal → IsRefusedFor net old new result }
{
    match refusal {
        LimitRefusal::NoMemory => ComparisonRefusal::NoMemory,
        _ => ComparisonRefusal::Old(refusal),
    }
}

// The refusal of a comparison where a case of the new policy passes a limit, and none of the old one does.
fn refusal_of_new(refusal: LimitRefusal) -> ComparisonRefusal
    ensures { (net : PlainNet) (old new : PlainPolicy) → AreAllWithin net old → IsRefused net new refusal → IsRefusedFor net old new result }
{
    match refusal {
        LimitRefusal::NoMemory => ComparisonRefusal::NoMemory,
        _ => ComparisonRefusal::New(refusal),
    }
}

// The graphs of the old policy's cases, or the refusal of a comparison.
fn old_graphs(alloc: Global, net: &Net, old: &Policy) -> Result<CaseGraphs, ComparisonRefusal>
    requires { IsPolicyOf net.now (policy_of old.now) }
    ensures graphs { IfOk result (AreCaseGraphs net.now (policy_of old.now)) }
    ensures within { OnOk result (AreAllWithin net.now (policy_of old.now)) }
    ensures refused { IfErr result (λ e. (new : PlainPolicy) → IsRefusedFor net.now (policy_of old.now) new e) }
{
    match graphs_of(alloc, net, old) {
        Ok(graphs) => Ok(graphs),
        Err(refusal) => Err(refusal_of_old(refusal)),
    }
}

// The graphs of the new policy's cases, or the refusal of a comparison with a policy whose cases are within the limits.
fn new_graphs(alloc: Global, net: &Net, new: &Policy) -> Result<CaseGraphs, ComparisonRefusal>
    requires { IsPolicyOf net.now (policy_of new.now) }
    ensures graphs { IfOk result (AreCaseGraphs net.now (policy_of new.now)) }
    ensures within { OnOk result (AreAllWithin net.now (policy_of new.now)) }
    ensures refused { IfErr result (λ e. (old : PlainPolicy) → AreAllWithin net.now old → IsRefusedFor net.now old (policy_of new.now) e) }
{
    match graphs_of(alloc, net, new) {
        Ok(graphs) => Ok(graphs),
        Err(refusal) => Err(refusal_of_new(refusal)),
    }
}

// The refusal of a comparison where a pair isn't compared.
fn refusal_of_pair(cases: &CasePair, fault: PairFault) -> ComparisonRefusal
    ensures { result ≡ refusal_for cases.now fault }
{
    match fault {
        PairFault::TooManySteps => {
            ComparisonRefusal::TooManySteps(cases.old.statement, cases.new.statement)
        }
        PairFault::NoMemory => ComparisonRefusal::NoMemory,
    }
}

/// The graphs of the cases of two policies.
#[derive(Drop)]
pub(crate) struct BothGraphs {
    old: CaseGraphs,
    new: CaseGraphs,
}

impl BothGraphs {
    /// The graphs of the cases of both policies, or which limit a case passes: one of the old policy before one of the new one.
    pub(crate) fn new(
        alloc: Global,
        net: &Net,
        old: &Policy,
        new: &Policy,
    ) -> Result<BothGraphs, ComparisonRefusal>
        requires old { IsPolicyOf net.now (policy_of old.now) }
        requires new { IsPolicyOf net.now (policy_of new.now) }
        ensures graphs { IfOk result (AreGraphsOfBoth net.now (policy_of old.now) (policy_of new.now)) }
        ensures refused { IfErr result (IsRefusedFor net.now (policy_of old.now) (policy_of new.now)) }
    {
        known_net(net);
        let before = old_graphs(alloc, net, old)?;
        let after = new_graphs(alloc, net, new)?;
        Ok(BothGraphs {
            old: before,
            new: after,
        })
    }

    /// What a pair of cases changes, with room for so many steps.
    pub(crate) fn change_of(
        &self,
        alloc: Global,
        net: &Net,
        cases: &CasePair,
        room: u32,
    ) -> Result<ChangedPair, ComparisonRefusal>
        ensures change { (old new : PlainPolicy) → AreGraphsOfBoth net.now old new self.now → IfOk result (λ given. IsChangeFor net.now old new cases.now given.change) }
        ensures used { (old new : PlainPolicy) → AreGraphsOfBoth net.now old new self.now → IfOk result (λ given. HasSteps net.now old new cases.now given.used) }
        ensures room { IfOk result (λ given. given.used ≤ room) }
        ensures many { (old new : PlainPolicy) → AreGraphsOfBoth net.now old new self.now → IfErr result (IsRefusedAt net.now old new cases.now room) }
    {
        let old = self.old.graph_for(&cases.old);
        let new = self.new.graph_for(&cases.new);
        known_graph(old);
        known_graph(new);
        case_graphs_show_walks();
        match pair_change(alloc, net, cases, old, new, room) {
            Ok(given) => Ok(given),
            Err(fault) => Err(refusal_of_pair(cases, fault)),
        }
    }
}
