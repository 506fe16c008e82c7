//! Whether a graph is well formed, and whether each of its nodes can be reached.
ghost use Rattle.std.specs.Prelude.{◌≡◌, ◌↔◌, ◌<◌, ℕ, IfOk, IsTrue, length};
ghost use Rattle.net_base.specs.Network.{linked};
ghost use Rattle.net_base.specs.Sets.{holds};
ghost use Rattle.location_names.specs.Neighbours.{is_held};
ghost use Rattle.graph_base.specs.Rules.{IsWellFormed};
ghost use Rattle.graph_base.specs.Runs.{is_start};
ghost use Rattle.reach_prune.specs.Searches.{is_marked};
ghost use Rattle.walk_check.specs.Formed.{NodesFit, StartsFit, StepsFit, node_fits as node_fits_in, step_fits as step_fits_in};

use crate::distinct::is_single_stepped;
use graph_base::Graph;
use input_output::NoMemory;
use location_names::{is_near, neighbour_sets};
use net_base::{LocSet, Net};
use policy_base::Case;
use std::alloc::{AllocError, Global};

/// Marks the starts among the nodes.
pub(crate) fn start_marks(alloc: Global, graph: &Graph) -> Result<Vec<bool>, AllocError>
    ensures size { IfOk result (λ marks. length marks.items ≡ length graph.now.nodes) }
    ensures marks { IfOk result (λ marks. (n : ℕ) → is_marked marks.items n ≡ is_start graph.now n) }
{
    let mut marks = vec![in alloc; false; graph.nodes().len()]?;
    for start in graph.starts() {
        marks[*start as usize] = true;
    }
    Ok(marks)
}

// Whether each start is at an origin.
fn starts_fit(case: &Case, graph: &Graph) -> bool
    ensures { IsTrue result ↔ StartsFit (holds case.now.origins) graph.now }
{
    for start in graph.starts() {
        if !case.origins.holds(graph.location(*start)) {
            return false;
        }
    }
    true
}

// Whether a node is a start where it is at an origin, and hears where it is to hear.
#[tactic(auto, unfolding(crate::specs::Formed::node_fits))]
fn node_fits(net: &Net, case: &Case, graph: &Graph, node: u32, start: bool) -> bool
    requires node { node < length graph.now.nodes }
    requires start { start ≡ is_start graph.now node }
    ensures { result ≡ node_fits_in net.now (holds case.now.origins) graph.now node }
{
    let at = graph.location(node);
    (start || !case.origins.holds(at)) && graph.hears(node) == (net.is_peer(at) && !start)
}

// Whether the starts alone are at origins, and those nodes hear that are to hear.
fn nodes_fit(net: &Net, case: &Case, graph: &Graph, starts: &[bool]) -> bool
    requires size { length starts.now ≡ length graph.now.nodes }
    requires starts { (n : ℕ) → is_marked starts.now n ≡ is_start graph.now n }
    ensures { IsTrue result ↔ NodesFit net.now (holds case.now.origins) graph.now }
{
    for node in 0..graph.nodes().len() {
        if !node_fits(net, case, graph, node as u32, starts[node]) {
            return false;
        }
    }
    true
}

// Whether a step goes over a link from a start or a router to what is no start, and to a peer only where routers are the
// origins. Links are looked up among the neighbours of each location.
#[tactic(auto, unfolding(crate::specs::Formed::step_fits))]
fn step_fits(
    net: &Net,
    near: &[LocSet],
    case: &Case,
    graph: &Graph,
    step: (u32, u32),
    starts: &[bool],
) -> bool
    requires near { (x l : ℕ) → is_held near.now x l ≡ linked net.now x l }
    requires size { length starts.now ≡ length graph.now.nodes }
    requires starts { (n : ℕ) → is_marked starts.now n ≡ is_start graph.now n }
    requires from { step.0 < length graph.now.nodes }
    requires to { step.1 < length graph.now.nodes }
    ensures { result ≡ step_fits_in net.now case.now.external graph.now step }
{
    let from = graph.location(step.0);
    let to = graph.location(step.1);
    is_near(near, from, to)
        && !starts[step.1 as usize]
        && (starts[step.0 as usize] || net.is_router(from))
        && !(case.external && net.is_peer(to))
}

// Whether each step goes as it should.
fn steps_fit(net: &Net, near: &[LocSet], case: &Case, graph: &Graph, starts: &[bool]) -> bool
    requires near { (x l : ℕ) → is_held near.now x l ≡ linked net.now x l }
    requires size { length starts.now ≡ length graph.now.nodes }
    requires starts { (n : ℕ) → is_marked starts.now n ≡ is_start graph.now n }
    ensures { IsTrue result ↔ StepsFit net.now case.now.external graph.now }
{
    for step in graph.steps() {
        if !step_fits(net, near, case, graph, *step, starts) {
            return false;
        }
    }
    true
}

// Whether the starts, the nodes and the steps are as they should be, each by itself.
fn parts_fit(net: &Net, near: &[LocSet], case: &Case, graph: &Graph, starts: &[bool]) -> bool
    requires near { (x l : ℕ) → is_held near.now x l ≡ linked net.now x l }
    requires size { length starts.now ≡ length graph.now.nodes }
    requires starts { (n : ℕ) → is_marked starts.now n ≡ is_start graph.now n }
    ensures { IsTrue result ↔ StartsFit (holds case.now.origins) graph.now × NodesFit net.now (holds case.now.origins) graph.now × StepsFit net.now case.now.external graph.now }
{
    starts_fit(case, graph)
        && nodes_fit(net, case, graph, starts)
        && steps_fit(net, near, case, graph, starts)
}

/// Whether the graph is well formed over the network for the origins of the case.
pub fn is_well_formed(
    alloc: Global,
    net: &Net,
    case: &Case,
    graph: &Graph,
) -> Result<bool, NoMemory>
    ensures { IfOk result (λ b. IsTrue b ↔ IsWellFormed net.now (holds case.now.origins) case.now.external graph.now) }
{
    let starts = start_marks(alloc, graph)?;
    let near = neighbour_sets(alloc, net)?;
    if !parts_fit(net, &near, case, graph, &starts) {
        return Ok(false);
    }
    is_single_stepped(alloc, graph)
}
