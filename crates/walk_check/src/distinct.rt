//! Whether a graph has at most one start at a location, and at most one step from a node to a location.
ghost use Rattle.std.specs.Prelude.{◌≡◌, ◌↔◌, ◌++◌, [], ◌∷◌, ℕ, IfOk, IsTrue, map, not};
ghost use Rattle.std.specs.List.{IsDistinct, list_any};
ghost use Rattle.graph_base.specs.Rules.{same_pair};
ghost use Rattle.graph_base.specs.Runs.{place_of};
ghost use Rattle.walk_check.specs.Alike.{IsSingleStepped};
ghost use Rattle.walk_check.specs.Keys.{is_before};

use graph_base::Graph;
use indexmap::IndexSet;
use input_output::NoMemory;
use net_base::Loc;
use std::alloc::{AllocError, Global};

// The location of each start, under one number.
fn start_keys(alloc: Global, graph: &Graph) -> Result<Vec<(u32, Loc)>, AllocError>
    ensures { IfOk result (λ keys. keys.items ≡ map (λ (s : ℕ). (0, place_of graph.now s)) graph.now.starts) }
{
    let mut keys = Vec::with_capacity(alloc, graph.starts().len())?;
    for start in graph.starts() {
        keys.push((0, graph.location(*start)))?;
    }
    Ok(keys)
}

// For each step the node from which it leads, with the location to which it leads.
fn step_keys(alloc: Global, graph: &Graph) -> Result<Vec<(u32, Loc)>, AllocError>
    ensures { IfOk result (λ keys. keys.items ≡ map (λ (s : ℕ × ℕ). (s.0, place_of graph.now s.1)) graph.now.steps) }
{
    let mut keys = Vec::with_capacity(alloc, graph.steps().len())?;
    for step in graph.steps() {
        keys.push((step.0, graph.location(step.1)))?;
    }
    Ok(keys)
}

// Puts a key behind those that were seen, unless it is there; says whether it is new.
fn note(seen: &mut IndexSet<(u32, Loc)>, key: (u32, Loc)) -> Result<bool, NoMemory>
    ensures fresh { IfOk result (λ new. new ≡ not (list_any (same_pair key) seen.old.keys)) }
    ensures added { IfOk result (λ new. IsTrue new → seen.new.keys ≡ seen.old.keys ++ key ∷ []) }
{
    Ok(seen.insert(key)?)
}

// Whether one key comes before another.
fn comes_before(one: (u32, Loc), other: (u32, Loc)) -> bool
    ensures { result ≡ is_before one other }
{
    one.0 < other.0 || (one.0 == other.0 && one.1 < other.1)
}

// Whether each key comes before the next one, as those of a graph do whose steps are in order. Then none stands twice.
fn ascend(keys: &[(u32, Loc)]) -> bool
    ensures { IsTrue result → IsDistinct same_pair keys.now }
{
    for place in 1..keys.len() {
        if !comes_before(keys[place - 1], keys[place]) {
            return false;
        }
    }
    true
}

// Whether no key stands twice, by looking each one up among those before it.
fn are_all_new(alloc: Global, keys: &[(u32, Loc)]) -> Result<bool, NoMemory>
    ensures { IfOk result (λ b. IsTrue b ↔ IsDistinct same_pair keys.now) }
{
    let mut seen = IndexSet::new(alloc);
    for key in keys {
        if !note(&mut seen, *key)? {
            return Ok(false);
        }
    }
    Ok(true)
}

// Whether no key stands twice. Where they are in order none is looked up.
fn are_distinct(alloc: Global, keys: &[(u32, Loc)]) -> Result<bool, NoMemory>
    ensures { IfOk result (λ b. IsTrue b ↔ IsDistinct same_pair keys.now) }
{
    if ascend(keys) {
        return Ok(true);
    }
    are_all_new(alloc, keys)
}

/// Whether there is at most one start at a location, and at most one step from a node to a location, as `alike` and `walks` ask.
pub fn is_single_stepped(alloc: Global, graph: &Graph) -> Result<bool, NoMemory>
    ensures { IfOk result (λ b. IsTrue b ↔ IsSingleStepped graph.now) }
{
    let starts = start_keys(alloc, graph)?;
    if !are_distinct(alloc, &starts)? {
        return Ok(false);
    }
    let steps = step_keys(alloc, graph)?;
    are_distinct(alloc, &steps)
}
