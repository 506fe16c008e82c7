//! Cases that are accepted.
ghost use Rattle.std.specs.Prelude.{◌≡◌, ◌≤◌, ℕ, IfErr, IfOk, length};
ghost use Rattle.policy_base.specs.declared.case.Case.{Case};
ghost use Rattle.policy_base.specs.Cases.{case_list};
ghost use Rattle.policy_base.specs.Policies.{PlainStatement, policy_of};
ghost use Rattle.graph_base.specs.Refuting.{HasSingleSteps};
ghost use Rattle.policy_base.specs.CaseNumbers.{OfCase, OriginsAreRouters};
ghost use Rattle.node_quotient.specs.Quotient.{AreAllToldApart};
ghost use Rattle.case_core.specs.Automata.{AllFit};
ghost use Rattle.case_evidence.specs.Accepted.{IsAccepted, IsCaseCause, IsGivenGraph};

use case_core::{CaseGraph, CompileRefusal, KeptAutomata, case_graph_over};
use graph_base::{Graph, Prefs, ranked_routers};
use net_base::Net;
use node_quotient::quotient;
use policy_base::{CaseList, Policy};
use preference_numbers::infer;
use relation_refute::refutation;
use state_simulation::{Search, total_relation};
use std::alloc::Global;

/// A case that is accepted: its graph, in which nodes are one that nothing onward tells apart, how many steps that had
/// before it was trimmed and joined, and a preference number for each of its nodes.
#[derive(Drop)]
pub struct AcceptedCase {
    /// The quotient of the trimmed graph.
    pub graph: Graph,
    /// How many steps the graph had before it was trimmed, at most as many as there was room for.
    pub used: u32,
    /// A preference number for each node of the graph.
    pub prefs: Prefs,
}

// The graph of the case with this number, and numbers for its nodes that meet the rules of evidence, or the
// refusal that there are none, with the lines that show it.
fn numbered(
    alloc: Global,
    net: &Net,
    number: u32,
    given: CaseGraph,
) -> Result<AcceptedCase, CompileRefusal>
    requires { HasSingleSteps given.graph }
    ensures accepted { (room : ℕ) (s : PlainStatement) (c : Case) → IsGivenGraph net.now room s c given.graph given.used → IfOk result (λ made. IsAccepted net.now room s c made) }
    ensures refused { (room : ℕ) (s : PlainStatement) (c : Case) → IsGivenGraph net.now room s c given.graph given.used → IfErr result (λ e. IsCaseCause net.now number room s c e) }
    ensures used { IfOk result (λ made. made.used ≡ given.used) }
    ensures sized { IfOk result (λ made. length made.prefs.of ≡ length made.graph.nodes) }
{
    let claimed = ranked_routers(net, &given.graph);
    let search = total_relation(alloc, &given.graph, &claimed)?;
    match search {
        Search::Total(relation) => {
            let prefs = infer(alloc, net, &given.graph, &relation)?;
            Ok(AcceptedCase {
                graph: given.graph,
                used: given.used,
                prefs,
            })
        }
        Search::Partial(begun) => {
            let refutation = refutation(alloc, begun, &claimed)?;
            Err(CompileRefusal::NoEvidence(number, given.graph, refutation))
        }
    }
}

/// The case with this number, from 1, with numbers for the nodes of its graph, or why the case is refused.
/// The graph has at most `room` steps before it is trimmed. The refusals are tried in the order of
/// `CompileRefusal`, and if memory is not refused the case is accepted exactly where none applies. Any two nodes of one
/// location in the graph are told apart by a path. The automaton that is kept for the statement serves this case, and
/// then the later ones.
pub fn accepted_case(
    alloc: Global,
    net: &Net,
    policy: &Policy,
    cases: &CaseList,
    number: u32,
    room: u32,
    kept: &mut KeptAutomata,
) -> Result<AcceptedCase, CompileRefusal>
    requires cases { cases.now.cases ≡ case_list net.now (policy_of policy.now) }
    requires from_one { 1 ≤ number }
    requires within { number ≤ length cases.now.cases }
    requires routers { OriginsAreRouters net.now policy.now.origins }
    requires kept { AllFit net.now (policy_of policy.now) kept.old }
    ensures accepted { IfOk result (λ given. OfCase net.now (policy_of policy.now) number (λ s c. IsAccepted net.now room s c given)) }
    ensures apart { IfOk result (λ given. AreAllToldApart given.graph) }
    ensures refused { IfErr result (λ e. OfCase net.now (policy_of policy.now) number (λ s c. IsCaseCause net.now number room s c e)) }
    ensures room { IfOk result (λ given. given.used ≤ room) }
    ensures sized { IfOk result (λ given. length given.prefs.of ≡ length given.graph.nodes) }
    ensures kept { AllFit net.now (policy_of policy.now) kept.new }
{
    let given = case_graph_over(alloc, net, policy, cases, number, room, kept)?;
    let graph = quotient(alloc, &given.graph)?;
    let used = given.used;
    let accepted = numbered(alloc, net, number, CaseGraph { graph, used })?;
    Ok(accepted)
}
