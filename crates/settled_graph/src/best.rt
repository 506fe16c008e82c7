//! The best nodes that are reached.
ghost use Rattle.std.specs.Prelude.{◌≡◌, ◌<◌, ℕ, Some, None, IfOk, length, option_map, if◌then◌else◌};
ghost use Rattle.std.specs.List.{AllByRecursion};
ghost use Rattle.net_base.specs.declared.limits.TheConstants.{LOCATIONS};
ghost use Rattle.net_base.specs.Sets.{holds};
ghost use Rattle.reach_prune.specs.Searches.{is_marked};
ghost use Rattle.graph_base.specs.Preferences.{number_in};
ghost use Rattle.settled_graph.specs.Best.{AreBest, AreGreatest, entry_at, is_better, wanted_by};

use graph_base::Graph;
use input_output::NoMemory;
use net_base::limits::LOCATIONS;
use net_base::{Loc, LocSet};
use reach_prune::{Way, marked};
use std::alloc::{AllocError, Global};

// Whether a node has a greater number than the best one so far, or there is none.
fn comes_over(numbers: &[u32], node: u32, best: Option<u32>) -> bool
    requires node { node < length numbers.now }
    requires best { (b : ℕ) → best ≡ Some b → b < length numbers.now }
    ensures { result ≡ is_better numbers.now node best }
{
    match best {
        None => true,
        Some(best) => numbers[best as usize] < numbers[node as usize],
    }
}

/// At each location the node with the greatest number of those that are marked, where one is.
pub fn best_nodes(
    alloc: Global,
    graph: &Graph,
    numbers: &[u32],
    marks: &[bool],
) -> Result<Vec<Option<u32>>, NoMemory>
    requires places { AllByRecursion (λ n. n.loc < LOCATIONS) graph.now.nodes }
    requires numbers { length numbers.now ≡ length graph.now.nodes }
    requires marks { length marks.now ≡ length graph.now.nodes }
    ensures { IfOk result (λ best. AreBest graph.now numbers.now (is_marked marks.now) (length graph.now.nodes) best.items) }
{
    let mut best = vec![in alloc; None; LOCATIONS as usize]?;
    for node in 0..graph.nodes().len() as u32 {
        let at = graph.location(node).number() as usize;
        if marks[node as usize] && comes_over(numbers, node, best[at]) {
            best[at] = Some(node);
        }
    }
    Ok(best)
}

// The number of the best node for a location that chooses.
fn number_wanted(numbers: &[u32], choosers: &LocSet, at: Loc, best: Option<u32>) -> Option<u32>
    requires { (n : ℕ) → best ≡ Some n → n < length numbers.now }
    ensures { result ≡ (if holds choosers.now at then option_map (number_in numbers.now) best else None) }
{
    if !choosers.holds(at) {
        return None;
    }
    let node = best?;
    Some(numbers[node as usize])
}

// The number of the best node for each location that chooses.
fn numbers_wanted(
    alloc: Global,
    numbers: &[u32],
    choosers: &LocSet,
    best: &[Option<u32>],
) -> Result<Vec<Option<u32>>, AllocError>
    requires size { length best.now ≡ LOCATIONS }
    requires nodes { (l n : ℕ) → entry_at best.now l ≡ Some n → n < length numbers.now }
    ensures size { IfOk result (λ wanted. length wanted.items ≡ LOCATIONS) }
    ensures numbers { IfOk result (λ wanted. (l : ℕ) → entry_at wanted.items l ≡ wanted_by numbers.now choosers.now best.now l) }
{
    let mut wanted = Vec::new(alloc);
    for place in 0..best.len() {
        let at = Loc::new(place as u16);
        wanted.push(number_wanted(numbers, choosers, at, best[place]))?;
    }
    Ok(wanted)
}

/// For each location that chooses the greatest number of the nodes there that are reached from the starts.
pub fn greatest_numbers(
    alloc: Global,
    graph: &Graph,
    numbers: &[u32],
    choosers: &LocSet,
) -> Result<Vec<Option<u32>>, NoMemory>
    requires places { AllByRecursion (λ n. n.loc < LOCATIONS) graph.now.nodes }
    requires numbers { length numbers.now ≡ length graph.now.nodes }
    ensures { IfOk result (λ wanted. AreGreatest graph.now numbers.now choosers.now wanted.items) }
{
    let reached = marked(alloc, graph, Way::Forward, graph.starts())?;
    let best = best_nodes(alloc, graph, numbers, &reached)?;
    Ok(numbers_wanted(alloc, numbers, choosers, &best)?)
}
