//! The graphs of all cases of a policy.
ghost use Rattle.std.specs.Prelude.{◌≡◌, ◌<◌, ◌≤◌, ◌^◌, IfErr, IfOk, OnOk, Some, if◌then◌else◌, length};
ghost use Rattle.indexmap.specs.IndexMap.{get};
ghost use Rattle.policy_base.specs.Cases.{case_list};
ghost use Rattle.policy_base.specs.CaseNumbers.{OfCase};
ghost use Rattle.policy_base.specs.Policies.{policy_of};
ghost use Rattle.case_core.specs.Automata.{AllFit};
ghost use Rattle.case_core.specs.Refusals.{IsCause, IsGraphOf};
ghost use Rattle.compare_base.specs.declared.cases.PrefixCase.{PrefixCase as PlainPrefixCase};
ghost use Rattle.compare_base.specs.Same.{same_case};
ghost use Rattle.case_graphs.specs.Graphs.{AreCaseGraphs, graph_in, no_graph, prefix_case as case_of};
ghost use Rattle.case_graphs.specs.Limits.{AreAllWithin, IsRefused, compile_refusal as refusal_of};

use crate::refusal::{LimitRefusal, limit_refusal};
use case_core::{CaseGraph, KeptAutomata, graph_within_limits};
use compare_base::PrefixCase;
use evidence_law::limits::STEPS;
use graph_base::Graph;
use indexmap::IndexMap;
use input_output::NoMemory;
use net_base::{List, Net};
use policy_base::{Case, CaseList, Policy};
use std::alloc::Global;

/// The graphs of a policy's cases, by what decides a prefix.
#[derive(Drop)]
pub struct CaseGraphs {
    graphs: IndexMap<PrefixCase, Graph>,
    none: Graph,
}

impl CaseGraphs {
    /// The graph of the case with this statement and these origins, or the graph without nodes where the policy has no such case.
    pub fn graph_for(&self, case: &PrefixCase) -> &Graph
        ensures { result.now ≡ graph_in self.now case.now }
    {
        match self.graphs.get(case) {
            Some(graph) => graph,
            None => &self.none,
        }
    }
}

/// What decides the prefixes of a case: its statement, and its origins where these are routers.
pub fn prefix_case(case: &Case) -> PrefixCase
    ensures { result ≡ case_of case.now }
{
    PrefixCase {
        statement: Some(case.statement),
        origins: if case.external {
            None
        } else {
            Some(case.origins)
        },
    }
}

// The graph without nodes.
fn bare(alloc: Global) -> Graph
    ensures { result ≡ no_graph }
{
    Graph::new(List::new(alloc), List::new(alloc), List::new(alloc))
}

// Keeps the graph of a case.
fn keep(
    graphs: &mut IndexMap<PrefixCase, Graph>,
    case: PrefixCase,
    graph: Graph,
) -> Result<(), NoMemory>
    ensures { OnOk result ((of : PlainPrefixCase) → get same_case graphs.new of ≡ (if same_case case of then Some graph else get same_case graphs.old of)) }
{
    graphs.insert(case, graph)?;
    Ok(())
}

// The graph of the case with this number, from 1, or which limit the case passes.
fn case_within(
    alloc: Global,
    net: &Net,
    policy: &Policy,
    cases: &CaseList,
    number: u32,
    room: u32,
    kept: &mut KeptAutomata,
) -> Result<CaseGraph, LimitRefusal>
    requires cases { cases.now.cases ≡ case_list net.now (policy_of policy.now) }
    requires from_one { 1 ≤ number }
    requires within { number ≤ length cases.now.cases }
    requires kept { AllFit net.now (policy_of policy.now) kept.old }
    ensures graph { IfOk result (λ given. OfCase net.now (policy_of policy.now) number (λ s c. IsGraphOf net.now room s c given)) }
    ensures kept { AllFit net.now (policy_of policy.now) kept.new }
    ensures refused { IfErr result (λ e. OfCase net.now (policy_of policy.now) number (λ s c. IsCause net.now number room s c (refusal_of e))) }
{
    match graph_within_limits(alloc, net, policy, cases, number, room, kept) {
        Ok(given) => Ok(given),
        Err(refusal) => Err(limit_refusal(&refusal)),
    }
}

/// The graph of each case of a policy, built and trimmed as the compiler does, with one room for steps; or which limit the first case
/// passes that passes one.
pub fn case_graphs(
    alloc: Global,
    net: &Net,
    policy: &Policy,
    cases: &CaseList,
) -> Result<CaseGraphs, LimitRefusal>
    requires cases { cases.now.cases ≡ case_list net.now (policy_of policy.now) }
    requires few { length cases.now.cases < 2 ^ 32 }
    ensures graphs { IfOk result (AreCaseGraphs net.now (policy_of policy.now)) }
    ensures within { OnOk result (AreAllWithin net.now (policy_of policy.now)) }
    ensures refused { IfErr result (IsRefused net.now (policy_of policy.now)) }
{
    let mut graphs = IndexMap::new(alloc);
    let mut room = STEPS as u32;
    let mut kept = KeptAutomata::new(alloc, policy)?;
    let list = cases.cases.as_slice();
    for place in 0..list.len() {
        let number = place as u32 + 1;
        let given = case_within(alloc, net, policy, cases, number, room, &mut kept)?;
        room -= given.used;
        keep(&mut graphs, prefix_case(&list[place]), given.graph)?;
    }
    Ok(CaseGraphs {
        graphs,
        none: bare(alloc),
    })
}
