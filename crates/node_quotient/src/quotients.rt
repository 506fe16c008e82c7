//! The quotient of a graph.
ghost use Rattle.std.specs.Prelude.{◌≡◌, ◌==◌, ◌<◌, ℕ, All, IfOk, length, map};
ghost use Rattle.graph_base.specs.Refuting.{HasSingleSteps};
ghost use Rattle.graph_base.specs.Graphs.{IsGraph};
ghost use Rattle.reach_prune.specs.Searches.{is_marked};
ghost use Rattle.node_quotient.specs.Alike.{class_in};
ghost use Rattle.node_quotient.specs.Quotient.{AreLeast, IsQuotient, led_to};

use crate::first::{first_classes, is_each_alone};
use crate::joined::least_joined;
use graph_base::{Graph, Node};
use input_output::NoMemory;
use net_base::List;
use reach_prune::kept;
use std::alloc::{AllocError, Global};

// Marks the nodes that are the least of their classes.
fn are_least(alloc: Global, least: &[u32]) -> Result<Vec<bool>, AllocError>
    ensures size { IfOk result (λ marks. length marks.items ≡ length least.now) }
    ensures marks { IfOk result (λ marks. (n : ℕ) → n < length least.now → is_marked marks.items n ≡ (class_in least.now n == n)) }
{
    let mut marks = Vec::new(alloc);
    for node in 0..least.len() {
        marks.push(least[node] as usize == node)?;
    }
    Ok(marks)
}

// The steps, each led to the least node of its target's class.
fn steps_led(
    alloc: Global,
    steps: &[(u32, u32)],
    least: &[u32],
) -> Result<List<(u32, u32)>, AllocError>
    requires { All (λ s. (s.0 < length least.now) × (s.1 < length least.now)) steps.now }
    ensures { IfOk result (λ led. led ≡ map (λ s. (s.0, class_in least.now s.1)) steps.now) }
{
    let mut led = List::new(alloc);
    for step in steps {
        led.push((step.0, least[step.1 as usize]))?;
    }
    Ok(led)
}

// The graph with each step led to the least node of its target's class.
fn graph_led(alloc: Global, graph: &Graph, least: &[u32]) -> Result<Graph, AllocError>
    requires size { length least.now ≡ length graph.now.nodes }
    requires least { AreLeast graph.now (class_in least.now) }
    ensures rules { IsGraph graph.now }
    ensures led { IfOk result (λ led. led ≡ led_to (class_in least.now) graph.now) }
{
    let nodes = List::from_vec(Vec::from_slice(alloc, graph.nodes())?);
    let starts = List::from_vec(Vec::from_slice(alloc, graph.starts())?);
    let steps = steps_led(alloc, graph.steps(), least)?;
    Ok(Graph::new(nodes, starts, steps))
}

// The graph in which steps lead to the least nodes alone, and only these are left.
fn led_to_least(alloc: Global, graph: &Graph, least: &[u32]) -> Result<Graph, NoMemory>
    requires size { length least.now ≡ length graph.now.nodes }
    requires least { AreLeast graph.now (class_in least.now) }
    ensures { IfOk result (IsQuotient graph.now) }
{
    let marks = are_least(alloc, least)?;
    let led = graph_led(alloc, graph, least)?;
    kept(alloc, &led, &marks)
}

/// The graph in which the nodes of one location are joined that nothing onward tells apart. A joined node has the
/// least number of its members, and the numbers close up in order. Where no two nodes have one location and one rank,
/// nothing can be joined.
pub fn quotient(alloc: Global, graph: &Graph) -> Result<Graph, NoMemory>
    requires { HasSingleSteps graph.now }
    ensures { IfOk result (λ q. IsQuotient graph.now q) }
{
    let first = first_classes(alloc, graph)?;
    if is_each_alone(&first) {
        let same = graph.copy(alloc)?;
        return Ok(same);
    }
    let least = least_joined(alloc, graph, first)?;
    led_to_least(alloc, graph, &least)
}
