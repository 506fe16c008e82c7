//! The settled outcome.
ghost use Rattle.std.specs.Prelude.{◌≡◌, ◌<◌, ◌≤◌, ℕ, Some, None, IfOk, IsTrue, length, option_map, if◌then◌else◌};
ghost use Rattle.config_base.specs.Configs.{PlainConfig};
ghost use Rattle.evidence_base.specs.Made.{number_at, tag_at};
ghost use Rattle.graph_base.specs.Runs.{is_start, place_of, start_at};
ghost use Rattle.settled_graph.specs.Best.{entry_at};
ghost use Rattle.net_base.specs.Sets.{holds};
ghost use Rattle.policy_base.specs.Policies.{IsPolicyOf, policy_of};
ghost use Rattle.evidence_law.specs.Passes.{Passes};
ghost use Rattle.outcome_base.specs.Outcomes.{Failures};
ghost use Rattle.settled_law.specs.Settled.{IsFullyStable};
ghost use Rattle.settled_outcome.specs.Outcomes.{AreSettled, IsOpen, held_by, own_tag as tag_of_own, started_route, tagged as with_tag};
ghost use Rattle.scenarios.specs.Scenarios.{failures_of};
ghost use Rattle.scenarios.specs.Surviving.{AreSurvivors};
ghost use Rattle.settled_outcome.specs.Surviving.{left_by};

use crate::left::{choosers, open_graph};
use config_base::{NO_TAG, Route};
use evidence_base::{CaseEvidence, Evidence, case_of};
use graph_base::Graph;
use input_output::NoMemory;
use net_base::{List, Loc, LocSet, Net, Prefix, Tag, known_net, known_prefix};
use policy_base::Policy;
use scenarios::{Outcome, Scenario, Survivors, origins_at};
use settled_graph::{Settled, settle_graph};
use std::alloc::{AllocError, Global};

// The tag of a node.
fn tag_of(case: &CaseEvidence, node: u32) -> Tag
    ensures { result ≡ tag_at case.now node }
{
    case.tags().get(node as usize).copied().unwrap_or(NO_TAG)
}

// The preference number of a node.
fn number_of(case: &CaseEvidence, node: u32) -> u32
    ensures { result ≡ number_at case.now node }
{
    case.prefs().get(node as usize).copied().unwrap_or(0)
}

// The route of a path, with the tag and the number of its node.
fn tagged(alloc: Global, case: &CaseEvidence, settled: &Settled) -> Result<Route, AllocError>
    ensures { IfOk result (λ route. route ≡ with_tag case.now settled.now) }
{
    Ok(Route {
        path: settled.path.copy(alloc)?,
        tag: tag_of(case, settled.node),
        pref: number_of(case, settled.node),
    })
}

// The routes of the routers where a graph is settled.
fn tagged_each(
    alloc: Global,
    count: usize,
    case: &CaseEvidence,
    settled: &[Option<Settled>],
) -> Result<Vec<Option<Route>>, AllocError>
    requires { count ≤ length settled.now }
    ensures size { IfOk result (λ routes. length routes.items ≡ count) }
    ensures routes { IfOk result (λ routes. (r : ℕ) → r < count → entry_at routes.items r ≡ option_map (with_tag case.now) (entry_at settled.now r)) }
{
    let mut routes = Vec::new(alloc);
    for router in 0..count {
        match &settled[router] {
            None => routes.push(None)?,
            Some(settled) => routes.push(Some(tagged(alloc, case, settled)?))?,
        }
    }
    Ok(routes)
}

// The routes of the routers in what is left of the graph of a case, where its live origins announce the prefix.
fn case_routes(
    alloc: Global,
    net: &Net,
    case: &CaseEvidence,
    left: Graph,
    survivors: &Survivors,
    origins: &LocSet,
) -> Result<Vec<Option<Route>>, NoMemory>
    requires starts { (s : ℕ) → IsTrue (is_start case.now.graph s) → IsTrue (holds origins.now (place_of case.now.graph s)) }
    requires left { left ≡ left_by net.now survivors.now case.now.graph }
    ensures size { IfOk result (λ routes. length routes.items ≡ length net.now.routers) }
    ensures settled { IfOk result (λ routes. AreSettled net.now survivors.now origins.now case.now routes.items) }
{
    // What is left has all nodes, so there is a number for each.
    let count = case.graph().nodes().len();
    prove!(left.nodes().len() == count);
    let choosers = choosers(net, survivors, origins);
    let settled = settle_graph(alloc, net, &left, case.prefs(), &choosers)?;
    let routes = tagged_each(alloc, net.routers().len(), case, &settled)?;
    Ok(routes)
}

// So many routers without a route.
fn no_routes(alloc: Global, count: usize) -> Result<Vec<Option<Route>>, AllocError>
    ensures size { IfOk result (λ routes. length routes.items ≡ count) }
    ensures routes { IfOk result (λ routes. (r : ℕ) → entry_at routes.items r ≡ None) }
{
    let mut routes = Vec::new(alloc);
    for _ in 0..count {
        routes.push(None)?;
    }
    Ok(routes)
}

// The start of a graph at a location.
fn start_of(graph: &Graph, at: Loc) -> Option<u32>
    ensures { result ≡ start_at graph.now at }
{
    for start in graph.starts() {
        if graph.location(*start) == at {
            return Some(*start);
        }
    }
    None
}

// The tag of the start at an origin in the case of a prefix, or none.
fn own_tag(case: Option<&CaseEvidence>, at: Loc) -> Tag
    ensures { result ≡ tag_of_own (option_map (λ c. c.now) case.entry) at }
{
    match case {
        None => NO_TAG,
        Some(case) => match start_of(case.graph(), at) {
            None => NO_TAG,
            Some(start) => tag_of(case, start),
        },
    }
}

// An origin's own route, where it is live.
fn own(
    alloc: Global,
    case: Option<&CaseEvidence>,
    survivors: &Survivors,
    at: Loc,
) -> Result<Option<Route>, AllocError>
    ensures { IfOk result (λ route. route ≡ (if holds survivors.now.dead at then None else Some (started_route (option_map (λ c. c.now) case.entry) at))) }
{
    if survivors.is_dead(at) {
        return Ok(None);
    }
    let mut path = List::new(alloc);
    path.push(at)?;
    Ok(Some(Route {
        path,
        tag: own_tag(case, at),
        pref: 0,
    }))
}

// Gives each origin its own route, where it is live, and none where it is dead.
fn with_origins(
    alloc: Global,
    net: &Net,
    case: Option<&CaseEvidence>,
    survivors: &Survivors,
    origins: &LocSet,
    others: Vec<Option<Route>>,
) -> Result<Vec<Option<Route>>, AllocError>
    requires { length others.items ≡ length net.now.routers }
    ensures size { IfOk result (λ routes. length routes.items ≡ length net.now.routers) }
    ensures routes { IfOk result (λ routes. (r : ℕ) → r < length net.now.routers
        → entry_at routes.items r ≡ held_by survivors.now origins.now (started_route (option_map (λ c. c.now) case.entry)) (entry_at others.items) r) }
{
    let mut routes = others;
    for place in 0..net.routers().len() {
        let router = Loc::new(place as u16);
        if origins.holds(router) {
            routes[place] = own(alloc, case, survivors, router)?;
        }
    }
    Ok(routes)
}

// A graph without nodes.
fn no_graph(alloc: Global) -> Graph {
    let nodes = List::new(alloc);
    let starts = List::new(alloc);
    let steps = List::new(alloc);
    Graph::new(nodes, starts, steps)
}

/// What failures leave of the graph of a prefix's case, or a graph without nodes where the prefix has no case.
pub fn open_case(
    alloc: Global,
    net: &Net,
    policy: &Policy,
    evidence: &Evidence,
    survivors: &Survivors,
    prefix: Prefix,
) -> Result<Graph, AllocError>
    requires fits { IsPolicyOf net.now (policy_of policy.now) }
    ensures { IfOk result (λ left. (config : PlainConfig) → Passes net.now (policy_of policy.now) config evidence.now.cases
        → (f : Failures) → AreSurvivors net.now f survivors.now → IsOpen net.now config evidence.now.cases f prefix left) }
{
    match case_of(policy, evidence, prefix) {
        None => Ok(no_graph(alloc)),
        Some(case) => open_graph(alloc, net, survivors, case.graph()),
    }
}

/// The settled outcome of a prefix, by what failures leave of the network, and of the graph of the prefix's case: it is stable, and each
/// router that isn't an origin holds the first of all routes that it is given, by preference, then by the fewest AS numbers, then by the
/// lowest identifier of the neighbour (RFC 4271, 9.1.2.2). There is one such outcome: `settled_law::settled_outcomes_are_one`. It is that
/// of the configuration that is made of the evidence, which is not needed for it.
pub fn settle_open(
    alloc: Global,
    net: &Net,
    policy: &Policy,
    evidence: &Evidence,
    survivors: &Survivors,
    left: Graph,
    prefix: Prefix,
) -> Result<Outcome, NoMemory>
    requires fits { IsPolicyOf net.now (policy_of policy.now) }
    requires passes { (config : PlainConfig) × Passes net.now (policy_of policy.now) config evidence.now.cases
        × ((f : Failures) × AreSurvivors net.now f survivors.now × IsOpen net.now config evidence.now.cases f prefix left) }
    ensures size { IfOk result (λ outcome. length outcome.routes ≡ length net.now.routers) }
    ensures settled { IfOk result (λ outcome. (config : PlainConfig) → Passes net.now (policy_of policy.now) config evidence.now.cases
        → (f : Failures) → AreSurvivors net.now f survivors.now → IsFullyStable net.now (policy_of policy.now) config f prefix outcome.routes) }
{
    known_net(net);
    known_prefix(prefix);
    let origins = origins_at(net, policy, prefix);
    let case = case_of(policy, evidence, prefix);
    let others = match case {
        None => no_routes(alloc, net.routers().len())?,
        Some(case) => case_routes(alloc, net, case, left, survivors, &origins)?,
    };
    let routes = with_origins(alloc, net, case, survivors, &origins, others)?;
    Ok(Outcome {
        routes: List::from_vec(routes),
    })
}

/// The settled outcome of a scenario.
pub fn settle(
    alloc: Global,
    net: &Net,
    policy: &Policy,
    evidence: &Evidence,
    scenario: &Scenario,
) -> Result<Outcome, NoMemory>
    requires fits { IsPolicyOf net.now (policy_of policy.now) }
    requires passes { (config : PlainConfig) × Passes net.now (policy_of policy.now) config evidence.now.cases }
    ensures size { IfOk result (λ outcome. length outcome.routes ≡ length net.now.routers) }
    ensures settled { IfOk result (λ outcome. (config : PlainConfig) → Passes net.now (policy_of policy.now) config evidence.now.cases
        → IsFullyStable net.now (policy_of policy.now) config (failures_of scenario.now) scenario.now.prefix outcome.routes) }
{
    let survivors = Survivors::new(net, scenario);
    let left = open_case(alloc, net, policy, evidence, &survivors, scenario.prefix)?;
    settle_open(
        alloc,
        net,
        policy,
        evidence,
        &survivors,
        left,
        scenario.prefix,
    )
}
