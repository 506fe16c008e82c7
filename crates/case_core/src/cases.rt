//! The graph of a case.
ghost use Rattle.std.specs.Prelude.{◌≡◌, ◌<◌, ◌≤◌, ℕ, IfErr, IfOk, IfSome, OnOk, length};
ghost use Rattle.net_base.specs.Network.{PlainNet};
ghost use Rattle.policy_base.specs.Cases.{case_list};
ghost use Rattle.policy_base.specs.Policies.{plain_statement, policy_of};
ghost use Rattle.graph_base.specs.Graphs.{IsGraph, PlainGraph};
ghost use Rattle.graph_base.specs.Walks.{IsEnteredFromBefore};
ghost use Rattle.policy_base.specs.CaseNumbers.{FitsOrigins, IsCase, OfCase, OriginsAreRouters};
ghost use Rattle.graph_law.specs.Limits.{IsBuiltWithin};
ghost use Rattle.case_core.specs.Automata.{AllFit, FitsStatement, IsAutomatonOf};
ghost use Rattle.case_core.specs.Refusals.{FitsCase, IsCause, IsGraphOf, IsMade, IsPastLimit, ShowsWalks};
ghost use Rattle.case_core.specs.Sources.{HavePaths, NoneMixed};

use crate::automata::{StatementAutomata, automata_for};
use crate::firsts::first_nodes;
use crate::kept::KeptAutomata;
use crate::refusal::CompileRefusal;
use crate::sources::{Mixed, first_mixed, without_path};
use crate::{BuildFault, build_over};
use graph_base::{Graph, walk_of};
use input_output::NoMemory;
use net_base::Net;
use path_automata::Automata;
use policy_base::{Case, CaseList, Policy, Statement};
use reach_prune::trim;
use std::alloc::Global;

/// The graph of a case, and how many steps it had before it was trimmed.
#[derive(Drop)]
pub struct CaseGraph {
    /// The graph, trimmed to the nodes that lead to a ranked one.
    pub graph: Graph,
    /// How many steps the graph had before it was trimmed, at most as many as there was room for.
    pub used: u32,
}

// The graph that is built of a case by the automaton of its statement, which is given back.
fn built(
    alloc: Global,
    net: &Net,
    number: u32,
    case: &Case,
    statement: &Statement,
    automata: Automata,
    room: u32,
) -> Result<(Graph, Automata), CompileRefusal>
    requires { IsAutomatonOf net.now (plain_statement statement.now) automata }
    ensures built { IfOk result (λ r. IsBuiltWithin net.now room (plain_statement statement.now) case.now r.0) }
    ensures automata { IfOk result (λ r. IsAutomatonOf net.now (plain_statement statement.now) r.1) }
    ensures limits { IfErr result IsPastLimit }
    ensures refused { IfErr result (λ e. IsCause net.now number room (plain_statement statement.now) case.now e) }
{
    match build_over(alloc, net, case, &statement.from, automata, room) {
        Ok(given) => Ok(given),
        Err(BuildFault::TooManyStates) => Err(CompileRefusal::TooManyStates(number)),
        Err(BuildFault::TooManySteps) => Err(CompileRefusal::TooManySteps(number)),
        Err(BuildFault::NoMemory) => Err(CompileRefusal::NoMemory),
    }
}

// The refusal of a router at which a node has a rank and another one has none: with the walks by which
// these nodes are shown.
fn mixed_source(
    alloc: Global,
    number: u32,
    graph: &Graph,
    mixed: Mixed,
) -> Result<CompileRefusal, NoMemory>
    requires ranked { mixed.ranked < length graph.now.nodes }
    requires unranked { mixed.unranked < length graph.now.nodes }
    requires entered { IsEnteredFromBefore graph.now }
    ensures { IfOk result (λ e. ShowsWalks graph.now number mixed e) }
{
    let with = walk_of(alloc, graph, mixed.ranked)?;
    let without = walk_of(alloc, graph, mixed.unranked)?;
    Ok(CompileRefusal::MixedSource(number, mixed.router, with, without))
}

// Judges the sources of a case by the nodes at them.
fn judged(
    alloc: Global,
    net: &Net,
    number: u32,
    case: &Case,
    statement: &Statement,
    graph: &Graph,
) -> Result<(), CompileRefusal>
    requires graph { IsGraph graph.now }
    requires origins { FitsOrigins net.now case.now }
    requires made { (room : ℕ) × (built : PlainGraph) × IsMade net.now room (plain_statement statement.now) case.now built graph.now }
    ensures fits { OnOk result (FitsCase net.now (plain_statement statement.now) case.now graph.now) }
    ensures paths { OnOk result (HavePaths net.now (plain_statement statement.now) case.now) }
    ensures unmixed { OnOk result (NoneMixed net.now (plain_statement statement.now) case.now) }
    ensures refused { (room : ℕ) (built : PlainGraph) → IsMade net.now room (plain_statement statement.now) case.now built graph.now
        → IfErr result (λ e. IsCause net.now number room (plain_statement statement.now) case.now e) }
{
    let table = first_nodes(alloc, net.routers().len(), graph)?;
    if let Some(at) = without_path(&statement.from, &case.origins, &table) {
        return Err(CompileRefusal::SourceWithoutPath(number, at));
    }
    if let Some(mixed) = first_mixed(&table) {
        return Err(mixed_source(alloc, number, graph, mixed)?);
    }
    Ok(())
}

// The automaton that was given back with a graph.
fn automaton_of(given: (Graph, Automata)) -> Automata
    ensures { result ≡ given.1 }
{
    given.1
}

// The graph of a case with its statement, its sources not judged, and the automaton for the statement's next case, or which
// limit the case passes.
fn trimmed_of(
    alloc: Global,
    net: &Net,
    number: u32,
    case: &Case,
    statement: &Statement,
    kept: Option<StatementAutomata>,
    room: u32,
) -> Result<(CaseGraph, StatementAutomata), CompileRefusal>
    requires { IfSome kept (FitsStatement net.now case.now.statement (plain_statement statement.now)) }
    ensures graph { IfOk result (λ given. IsGraphOf net.now room (plain_statement statement.now) case.now given.0) }
    ensures automata { IfOk result (λ given. IsAutomatonOf net.now (plain_statement statement.now) given.1.automata) }
    ensures statement { IfOk result (λ given. given.1.statement ≡ case.now.statement) }
    ensures limits { IfErr result IsPastLimit }
    ensures refused { IfErr result (λ e. IsCause net.now number room (plain_statement statement.now) case.now e) }
{
    let kept = automata_for(alloc, net, number, case, statement, kept)?;
    let given = built(alloc, net, number, case, statement, kept.automata, room)?;
    let graph = trim(alloc, &given.0)?;
    let used = given.0.steps().len() as u32;
    let nodes = kept.nodes.saturating_sub(given.0.nodes().len());
    let next = StatementAutomata {
        statement: kept.statement,
        automata: automaton_of(given),
        nodes,
    };
    Ok((CaseGraph { graph, used }, next))
}

// The case with this number, from 1, and its statement.
fn case_of<'a>(policy: &'a Policy, cases: &'a CaseList, number: u32) -> (&'a Case, &'a Statement)
    requires cases { (net : PlainNet) × (cases.now.cases ≡ case_list net (policy_of policy.now)) }
    requires from_one { 1 ≤ number }
    requires within { number ≤ length cases.now.cases }
    ensures case { (net : PlainNet) → cases.now.cases ≡ case_list net (policy_of policy.now) → IsCase net (policy_of policy.now) number (plain_statement result.1.now) result.0.now }
    ensures from_one { 1 ≤ result.0.now.statement }
    ensures within { result.0.now.statement ≤ length policy.now.statements }
{
    let case = &cases.cases.as_slice()[number as usize - 1];
    let statement = &policy.statements()[case.statement as usize - 1];
    (case, statement)
}

/// The graph of the case with this number, from 1, whose sources are not judged, or which of the limits on alternatives, nodes and
/// steps it passes. The automaton that is kept for its statement serves this case, and then the later ones.
pub fn graph_within_limits(
    alloc: Global,
    net: &Net,
    policy: &Policy,
    cases: &CaseList,
    number: u32,
    room: u32,
    kept: &mut KeptAutomata,
) -> Result<CaseGraph, CompileRefusal>
    requires cases { cases.now.cases ≡ case_list net.now (policy_of policy.now) }
    requires from_one { 1 ≤ number }
    requires within { number ≤ length cases.now.cases }
    requires kept { AllFit net.now (policy_of policy.now) kept.old }
    ensures graph { IfOk result (λ given. OfCase net.now (policy_of policy.now) number (λ s c. IsGraphOf net.now room s c given)) }
    ensures kept { AllFit net.now (policy_of policy.now) kept.new }
    ensures limits { IfErr result IsPastLimit }
    ensures refused { IfErr result (λ e. OfCase net.now (policy_of policy.now) number (λ s c. IsCause net.now number room s c e)) }
{
    let (case, statement) = case_of(policy, cases, number);
    let own = kept.take(case.statement);
    let (given, next) = trimmed_of(alloc, net, number, case, statement, own, room)?;
    kept.keep(next);
    Ok(given)
}

/// The graph of the case with this number, from 1, or why the case is refused, as `case_graph` says. The automaton that is kept
/// for its statement serves this case, and then the later ones.
pub fn case_graph_over(
    alloc: Global,
    net: &Net,
    policy: &Policy,
    cases: &CaseList,
    number: u32,
    room: u32,
    kept: &mut KeptAutomata,
) -> Result<CaseGraph, CompileRefusal>
    requires cases { cases.now.cases ≡ case_list net.now (policy_of policy.now) }
    requires from_one { 1 ≤ number }
    requires within { number ≤ length cases.now.cases }
    requires routers { OriginsAreRouters net.now policy.now.origins }
    requires kept { AllFit net.now (policy_of policy.now) kept.old }
    ensures graph { IfOk result (λ given. OfCase net.now (policy_of policy.now) number (λ s c. IsGraphOf net.now room s c given)) }
    ensures fits { IfOk result (λ given. OfCase net.now (policy_of policy.now) number (λ s c. FitsCase net.now s c given.graph)) }
    ensures paths { OnOk result (OfCase net.now (policy_of policy.now) number (HavePaths net.now)) }
    ensures unmixed { OnOk result (OfCase net.now (policy_of policy.now) number (NoneMixed net.now)) }
    ensures kept { AllFit net.now (policy_of policy.now) kept.new }
    ensures refused { IfErr result (λ e. OfCase net.now (policy_of policy.now) number (λ s c. IsCause net.now number room s c e)) }
{
    let given = graph_within_limits(alloc, net, policy, cases, number, room, kept)?;
    let (case, statement) = case_of(policy, cases, number);
    judged(alloc, net, number, case, statement, &given.graph)?;
    Ok(given)
}

/// The graph of the case with this number, from 1, with at most `room` steps before it is trimmed, or why
/// the case is refused. The refusals are tried in the order of `CompileRefusal`, and if memory is not refused
/// a graph is given exactly where none applies.
pub fn case_graph(
    alloc: Global,
    net: &Net,
    policy: &Policy,
    cases: &CaseList,
    number: u32,
    room: u32,
) -> Result<CaseGraph, CompileRefusal>
    requires cases { cases.now.cases ≡ case_list net.now (policy_of policy.now) }
    requires from_one { 1 ≤ number }
    requires within { number ≤ length cases.now.cases }
    requires routers { OriginsAreRouters net.now policy.now.origins }
    ensures graph { IfOk result (λ given. OfCase net.now (policy_of policy.now) number (λ s c. IsGraphOf net.now room s c given)) }
    ensures fits { IfOk result (λ given. OfCase net.now (policy_of policy.now) number (λ s c. FitsCase net.now s c given.graph)) }
    ensures paths { OnOk result (OfCase net.now (policy_of policy.now) number (HavePaths net.now)) }
    ensures unmixed { OnOk result (OfCase net.now (policy_of policy.now) number (NoneMixed net.now)) }
    ensures refused { IfErr result (λ e. OfCase net.now (policy_of policy.now) number (λ s c. IsCause net.now number room s c e)) }
{
    let mut kept = KeptAutomata::new(alloc, policy)?;
    case_graph_over(alloc, net, policy, cases, number, room, &mut kept)
}
