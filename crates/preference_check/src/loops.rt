//! The first pair of nodes that breaks the loop rule.
ghost use Rattle.std.specs.Prelude.{◌≡◌, ◌↔◌, ◌||◌, ◌&&◌, ◌==◌, ◌<◌, ◌≤◌, All, ℕ, false, nat_le, IfOk, IsTrue, OnOk, length};
ghost use Rattle.net_base.specs.Network.{is_router};
ghost use Rattle.graph_base.specs.Graphs.{IsGraph};
ghost use Rattle.graph_base.specs.Rules.{KeepsLoop, KeepsStep, steps_on};
ghost use Rattle.graph_base.specs.Runs.{is_listener, place_of};
ghost use Rattle.reach_prune.specs.Searches.{AreLists, Leads, is_among, is_marked};
ghost use Rattle.graph_base.specs.Preferences.{number_in};
ghost use Rattle.preference_check.specs.FirstPair.{IsFirstOrNone, IsFirstPairOrNone};
ghost use Rattle.preference_check.specs.Floods.{AreLeast, AreNeighbours, AreNoLess, HaveOneNumber, IsNoGreater, KeepsLoopAt};
ghost use Rattle.preference_check.specs.Rows.{has_upto, is_upto};
ghost use Rattle.preference_check.specs.Runs.{IsAscending, IsRunAt, has_node};

use crate::faults::is_over;
use crate::flood::Flood;
use crate::low_row::LowRow;
use crate::runs::{Numbered, in_order, nodes_of_routers};
use bit_rows::NodeList;
use graph_base::Graph;
use input_output::NoMemory;
use net_base::{List, Net};
use reach_prune::{Way, marked, neighbours};
use std::alloc::{AllocError, Global};

// Whether a number is there that is less than another one.
fn is_less(low: Option<u32>, number: u32) -> bool
    ensures { result ≡ false ↔ ((v : ℕ) → IsTrue (is_upto low v) → number ≤ v) }
{
    match low {
        Some(low) => low < number,
        None => false,
    }
}

// For each node the least number in a run of a node from which it is reached, or one that is less.
fn lows(alloc: Global, lists: &[NodeList], run: &[Numbered]) -> Result<Vec<Option<u32>>, AllocError>
    requires lists { AreLists lists.now }
    requires nodes { All (λ x. x.node < length lists.now) run.now }
    requires order { IsAscending run.now }
    ensures size { IfOk result (λ lows. length lows.items ≡ length lists.now) }
    ensures lows { IfOk result (λ lows. (k number n : ℕ) → IsTrue (has_node run.now k number) → Leads lists.now k n → IsTrue (has_upto lows.items n number)) }
{
    let mut flood = Flood::new(alloc, lists.len())?;
    for entry in run {
        flood.spread(lists, entry.node, entry.number)?;
    }
    Ok(flood.marks)
}

// Whether the nodes of a run have one number, or there is none.
fn has_one_number(run: &[Numbered]) -> bool
    requires { IsAscending run.now }
    ensures { IsTrue result → (k n v w : ℕ) → IsTrue (has_node run.now k v) → IsTrue (has_node run.now n w) → v ≤ w }
{
    run.is_empty() || run[run.len() - 1].number <= run[0].number
}

// Whether a step leads to a node at a location whose number is greater than the mark of the first one.
fn is_too_great(
    graph: &Graph,
    numbers: &[u32],
    at: usize,
    lows: &[Option<u32>],
    step: (u32, u32),
) -> bool
    requires from { step.0 < length graph.now.nodes }
    requires to { step.1 < length graph.now.nodes }
    requires numbers { length numbers.now ≡ length graph.now.nodes }
    requires lows { length lows.now ≡ length graph.now.nodes }
    ensures { result ≡ false → is_listener graph.now step.1 ≡ false → place_of graph.now step.1 ≡ at → (v : ℕ) → IsTrue (has_upto lows.now step.0 v) → number_in numbers.now step.1 ≤ v }
{
    graph.location(step.1).number() as usize == at
        && !graph.hears(step.1)
        && is_less(lows[step.0 as usize], numbers[step.1 as usize])
}

// Marks the nodes that step to a node at a location whose number is greater than their own mark.
fn mark_steps(
    graph: &Graph,
    numbers: &[u32],
    at: usize,
    lows: &[Option<u32>],
    suspects: &mut Vec<bool>,
)
    requires numbers { length numbers.now ≡ length graph.now.nodes }
    requires lows { length lows.now ≡ length graph.now.nodes }
    requires size { length suspects.old.items ≡ length graph.now.nodes }
    ensures size { length suspects.new.items ≡ length suspects.old.items }
    ensures kept { (m : ℕ) → is_marked suspects.new.items m ≡ false → is_marked suspects.old.items m ≡ false }
    ensures steps { (m : ℕ) → is_marked suspects.new.items m ≡ false → AreNoLess graph.now (number_in numbers.now) at lows.now m }
{
    for step in graph.steps() {
        if is_too_great(graph, numbers, at, lows, *step) {
            suspects[step.0 as usize] = true;
        }
    }
}

// Marks each node that may break the loop rule with itself at a router.
fn mark_suspects_at(
    alloc: Global,
    graph: &Graph,
    numbers: &[u32],
    lists: &[NodeList],
    at: usize,
    nodes: List<Numbered>,
    suspects: &mut Vec<bool>,
) -> Result<(), AllocError>
    requires numbers { length numbers.now ≡ length graph.now.nodes }
    requires lists { AreNeighbours graph.now lists.now }
    requires nodes { IsRunAt graph.now numbers.now at nodes }
    requires size { length suspects.old.items ≡ length graph.now.nodes }
    ensures size { length suspects.new.items ≡ length suspects.old.items }
    ensures kept { (m : ℕ) → is_marked suspects.new.items m ≡ false → is_marked suspects.old.items m ≡ false }
    ensures rule { OnOk result ((m : ℕ) → is_marked suspects.new.items m ≡ false → KeepsLoopAt graph.now (number_in numbers.now) at m) }
{
    let run = in_order(nodes);
    if has_one_number(&run) {
        return Ok(());
    }
    let lows = lows(alloc, lists, &run)?;
    mark_steps(graph, numbers, at, &lows, suspects);
    Ok(())
}

// Marks each node that may break the loop rule with itself.
fn loop_suspects(
    alloc: Global,
    net: &Net,
    graph: &Graph,
    numbers: &[u32],
    lists: &[NodeList],
) -> Result<Vec<bool>, NoMemory>
    requires numbers { length numbers.now ≡ length graph.now.nodes }
    requires lists { AreNeighbours graph.now lists.now }
    ensures size { IfOk result (λ suspects. length suspects.items ≡ length graph.now.nodes) }
    ensures rule { IfOk result (λ suspects. (l m : ℕ) → l < length net.now.routers → is_marked suspects.items m ≡ false → KeepsLoopAt graph.now (number_in numbers.now) l m) }
{
    let mut suspects = vec![in alloc; false; graph.nodes().len()]?;
    let mut routers = nodes_of_routers(alloc, net, graph, numbers)?;
    'routers: while let Some(nodes) = routers.pop() {
        mark_suspects_at(
            alloc,
            graph,
            numbers,
            lists,
            routers.len(),
            nodes,
            &mut suspects,
        )?;
    }
    Ok(suspects)
}

// Puts the number of a node in at its location.
fn take_number(
    graph: &Graph,
    numbers: &[u32],
    node: u32,
    least: &mut LowRow,
) -> Result<(), AllocError>
    requires node { node < length graph.now.nodes }
    requires numbers { length numbers.now ≡ length graph.now.nodes }
    ensures { OnOk result ((l v : ℕ) → has_upto least.new.least.items l v ≡ (has_upto least.old.least.items l v || (place_of graph.now node == l && nat_le (number_in numbers.now node) v))) }
{
    let at = graph.location(node).number() as usize;
    least.lower(at, numbers[node as usize])
}

// The least number at each location of a node that is marked.
fn least_numbers(
    alloc: Global,
    graph: &Graph,
    numbers: &[u32],
    marks: &[bool],
) -> Result<LowRow, AllocError>
    requires numbers { length numbers.now ≡ length graph.now.nodes }
    requires marks { length marks.now ≡ length graph.now.nodes }
    ensures { IfOk result (λ least. AreLeast graph.now numbers.now marks.now (length graph.now.nodes) least.least.items) }
{
    let mut least = LowRow::new(alloc);
    for node in 0..graph.nodes().len() as u32 {
        if marks[node as usize] {
            take_number(graph, numbers, node, &mut least)?;
        }
    }
    Ok(least)
}

// Whether a node hears, or has a number that is no greater than the least one at its location.
fn is_no_greater(graph: &Graph, numbers: &[u32], least: &LowRow, node: u32) -> bool
    requires node { node < length graph.now.nodes }
    requires numbers { length numbers.now ≡ length graph.now.nodes }
    ensures { IsTrue result ↔ IsNoGreater graph.now numbers.now least.now.least.items node }
{
    let low = least.at(graph.location(node).number() as usize);
    graph.hears(node) || !is_less(low, numbers[node as usize])
}

// Whether this is so of each of these nodes.
fn are_no_greater(graph: &Graph, numbers: &[u32], least: &LowRow, nodes: &[u32]) -> bool
    requires numbers { length numbers.now ≡ length graph.now.nodes }
    requires nodes { All (λ n. n < length graph.now.nodes) nodes.now }
    ensures { IsTrue result ↔ ((t : ℕ) → IsTrue (is_among nodes.now t) → IsNoGreater graph.now numbers.now least.now.least.items t) }
{
    for node in nodes {
        if !is_no_greater(graph, numbers, least, *node) {
            return false;
        }
    }
    true
}

// The first node over which a node stands and with which it breaks the loop rule.
fn first_looped(
    alloc: Global,
    net: &Net,
    graph: &Graph,
    numbers: &[u32],
    lists: &[NodeList],
    node: u32,
) -> Result<Option<u32>, NoMemory>
    requires numbers { length numbers.now ≡ length graph.now.nodes }
    requires lists { AreNeighbours graph.now lists.now }
    requires node { node < length graph.now.nodes }
    ensures { IfOk result (IsFirstOrNone (KeepsLoop net.now graph.now (number_in numbers.now) node)) }
{
    if !net.is_router(graph.location(node)) {
        return Ok(None);
    }
    let before = marked(alloc, graph, Way::Backward, &[node])?;
    let least = least_numbers(alloc, graph, numbers, &before)?;
    for other in 0..graph.nodes().len() as u32 {
        if is_over(net, graph, numbers, node, other)
            && !are_no_greater(graph, numbers, &least, lists[other as usize].as_slice())
        {
            return Ok(Some(other));
        }
    }
    Ok(None)
}

// Notes the number of a node at its location, and says whether it is the one that is noted there.
fn note_number(
    graph: &Graph,
    numbers: &[u32],
    node: u32,
    noted: &mut LowRow,
) -> Result<bool, AllocError>
    requires node { node < length graph.now.nodes }
    requires numbers { length numbers.now ≡ length graph.now.nodes }
    ensures here { IfOk result (λ same. IsTrue same → (v : ℕ) → has_upto noted.new.least.items (place_of graph.now node) v ≡ nat_le (number_in numbers.now node) v) }
    ensures kept { OnOk result ((l v w : ℕ) → IsTrue (has_upto noted.old.least.items l w) → has_upto noted.new.least.items l v ≡ has_upto noted.old.least.items l v) }
{
    let at = graph.location(node).number() as usize;
    let number = numbers[node as usize];
    match noted.at(at) {
        Some(other) => Ok(other == number),
        None => {
            noted.lower(at, number)?;
            Ok(true)
        }
    }
}

// Whether the nodes at each location have one number.
fn have_one_number(alloc: Global, graph: &Graph, numbers: &[u32]) -> Result<bool, AllocError>
    requires { length numbers.now ≡ length graph.now.nodes }
    ensures one { IfOk result (λ one. IsTrue one → HaveOneNumber graph.now (number_in numbers.now) (length graph.now.nodes)) }
    ensures rules { IsGraph graph.now }
{
    let mut noted = LowRow::new(alloc);
    for node in 0..graph.nodes().len() as u32 {
        if !note_number(graph, numbers, node, &mut noted)? {
            return Ok(false);
        }
    }
    Ok(true)
}

/// The first pair of nodes, the first over the second, of which the second steps to a node of a router at which a node
/// with a lesser number reaches the first.
pub fn loop_fault(
    alloc: Global,
    net: &Net,
    graph: &Graph,
    numbers: &[u32],
) -> Result<Option<(u32, u32)>, NoMemory>
    requires numbers { length numbers.now ≡ length graph.now.nodes }
    requires routers { (m t : ℕ) → IsTrue (steps_on graph.now m t) → IsTrue (is_router net.now (place_of graph.now t)) }
    requires step { (m n : ℕ) → KeepsStep net.now graph.now (number_in numbers.now) m n }
    ensures { IfOk result (IsFirstPairOrNone (KeepsLoop net.now graph.now (number_in numbers.now))) }
{
    if have_one_number(alloc, graph, numbers)? {
        return Ok(None);
    }
    let lists = neighbours(alloc, graph, Way::Forward)?;
    let suspects = loop_suspects(alloc, net, graph, numbers, &lists)?;
    for first in 0..graph.nodes().len() as u32 {
        if suspects[first as usize] {
            if let Some(second) = first_looped(alloc, net, graph, numbers, &lists, first)? {
                return Ok(Some((first, second)));
            }
        }
    }
    Ok(None)
}
