//! The part of a graph that can still get a rank.
ghost use Rattle.std.specs.Prelude.{◌≡◌, ◌↔◌, ℕ, ◌<◌, ◌≤◌, All, IfOk, IsTrue, is_some, length};
ghost use Rattle.std.specs.List.{filter_map};
ghost use Rattle.graph_base.specs.Runs.{rank_at};
ghost use Rattle.graph_base.specs.declared.graph.TheConstants.{MAX_NODES};
ghost use Rattle.reach_prune.specs.Numbers.{number_in, number_kept, step_in};
ghost use Rattle.reach_prune.specs.Searches.{is_among, is_marked};
ghost use Rattle.reach_prune.specs.Trimmed.{CanBeRanked, IsTrimmed, graph_kept, nodes_kept as nodes_kept_of};

use crate::marking::marked;
use crate::steps::Way;
use graph_base::{Graph, Node};
use input_output::NoMemory;
use net_base::List;
use std::alloc::{AllocError, Global};

/// The graph without the nodes from which no rank can be reached, and without their steps. The numbers of
/// the others close up in order.
pub fn trim(alloc: Global, graph: &Graph) -> Result<Graph, NoMemory>
    ensures { IfOk result (λ trimmed. IsTrimmed graph.now trimmed) }
{
    let marks = can_be_ranked(alloc, graph)?;
    kept(alloc, graph, &marks)
}

/// The graph of the nodes that are marked and of the steps between them. Their numbers close up in order.
pub fn kept(alloc: Global, graph: &Graph, marks: &[bool]) -> Result<Graph, NoMemory>
    requires { length marks.now ≡ length graph.now.nodes }
    ensures { IfOk result (λ g. g ≡ graph_kept (is_marked marks.now) graph.now) }
{
    let nodes = nodes_kept(alloc, graph.nodes(), marks)?;
    let numbers = new_numbers(alloc, marks)?;
    let starts = starts_kept(alloc, graph.starts(), &numbers)?;
    let steps = steps_kept(alloc, graph.steps(), &numbers)?;
    Ok(Graph::new(nodes, starts, steps))
}

// Marks the nodes from which a node with a rank can be reached.
fn can_be_ranked(alloc: Global, graph: &Graph) -> Result<Vec<bool>, NoMemory>
    ensures size { IfOk result (λ marks. length marks.items ≡ length graph.now.nodes) }
    ensures kept { IfOk result (λ marks. (n : ℕ) → n < length graph.now.nodes → IsTrue (is_marked marks.items n) ↔ CanBeRanked graph.now n) }
{
    let ranked = ranked_nodes(alloc, graph)?;
    let marks = marked(alloc, graph, Way::Backward, &ranked)?;
    Ok(marks)
}

// The nodes with a rank.
fn ranked_nodes(alloc: Global, graph: &Graph) -> Result<Vec<u32>, AllocError>
    ensures nodes { IfOk result (λ ranked. All (λ n. n < length graph.now.nodes) ranked.items) }
    ensures ranked { IfOk result (λ ranked. (n : ℕ) → is_among ranked.items n ≡ is_some (rank_at graph.now n)) }
{
    let nodes = graph.nodes();
    let mut ranked = Vec::new(alloc);
    for i in 0..nodes.len() {
        if nodes[i].rank.is_some() {
            ranked.push(i as u32)?;
        }
    }
    Ok(ranked)
}

// The new number of each node that is kept.
fn new_numbers(alloc: Global, kept: &[bool]) -> Result<Vec<Option<u32>>, AllocError>
    requires { length kept.now ≤ MAX_NODES }
    ensures size { IfOk result (λ numbers. length numbers.items ≡ length kept.now) }
    ensures numbers { IfOk result (λ numbers. (n : ℕ) → number_in numbers.items n ≡ number_kept (is_marked kept.now) n) }
{
    let mut numbers = Vec::with_capacity(alloc, kept.len())?;
    let mut count = 0;
    for keep in kept {
        if *keep {
            numbers.push(Some(count))?;
            count += 1;
        } else {
            numbers.push(None)?;
        }
    }
    Ok(numbers)
}

// The nodes that are kept.
fn nodes_kept(alloc: Global, nodes: &[Node], kept: &[bool]) -> Result<List<Node>, AllocError>
    requires { length nodes.now ≡ length kept.now }
    ensures { IfOk result (λ list. list ≡ nodes_kept_of (is_marked kept.now) 0 nodes.now) }
{
    let mut list = List::new(alloc);
    for i in 0..nodes.len() {
        if kept[i] {
            list.push(nodes[i])?;
        }
    }
    Ok(list)
}

// The new numbers of the starts that are kept.
fn starts_kept(
    alloc: Global,
    starts: &[u32],
    numbers: &[Option<u32>],
) -> Result<List<u32>, AllocError>
    requires { All (λ n. n < length numbers.now) starts.now }
    ensures { IfOk result (λ list. list ≡ filter_map (number_in numbers.now) starts.now) }
{
    let mut list = List::new(alloc);
    for start in starts {
        if let Some(number) = numbers[*start as usize] {
            list.push(number)?;
        }
    }
    Ok(list)
}

// The steps both of whose ends are kept, with the new numbers.
fn steps_kept(
    alloc: Global,
    steps: &[(u32, u32)],
    numbers: &[Option<u32>],
) -> Result<List<(u32, u32)>, AllocError>
    requires { All (λ s. (s.0 < length numbers.now) × (s.1 < length numbers.now)) steps.now }
    ensures { IfOk result (λ list. list ≡ filter_map (step_in numbers.now) steps.now) }
{
    let mut list = List::new(alloc);
    for step in steps {
        if let Some(renumbered) = step_kept(*step, numbers) {
            list.push(renumbered)?;
        }
    }
    Ok(list)
}

// The step with the new numbers of its ends, where both are kept.
fn step_kept(step: (u32, u32), numbers: &[Option<u32>]) -> Option<(u32, u32)>
    requires from { step.0 < length numbers.now }
    requires to { step.1 < length numbers.now }
    ensures { result ≡ step_in numbers.now step }
{
    let from = numbers[step.0 as usize]?;
    let to = numbers[step.1 as usize]?;
    Some((from, to))
}
