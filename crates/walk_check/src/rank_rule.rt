//! Whether each node has the rank of the walks that end there.
ghost use Rattle.std.specs.Prelude.{◌≡◌, ◌↔◌, ◌<◌, ℕ, Bool, List as Items, IfOk, IsTrue, Some, is_some, length, slice_get};
ghost use Rattle.net_base.specs.Network.{PlainNet};
ghost use Rattle.policy_base.specs.Policies.{PlainStatement};
ghost use Rattle.graph_base.specs.Graphs.{IsGraph};
ghost use Rattle.graph_base.specs.Runs.{rank_at, run};
ghost use Rattle.evidence_law.specs.Faithful.{HasRank, HasWalks, IsFaithful};
ghost use Rattle.node_classes.specs.Classes.{class_in};
ghost use Rattle.walk_check.specs.Alike.{AreAlike, IsSingleStepped};
ghost use Rattle.walk_check.specs.Firsts.{IsFirstOrNone, IsMet};
ghost use Rattle.walk_check.specs.PairRanks.{IsLeastUnlike, lesser_of};

use crate::comparing::WalkClasses;
use crate::ways::both_ways;
use graph_base::{Graph, MAX_NODES};
use indexmap::IndexSet;
use input_output::NoMemory;
use node_classes::pairs_met;
use std::alloc::Global;

// The class of a node.
fn class_of(classes: &[u32], node: u32) -> u32
    ensures { result ≡ class_in classes.now node }
{
    classes.get(node as usize).copied().unwrap_or(node)
}

// The rank of a node, if there is such a node and it has one.
fn rank_of(graph: &Graph, node: u32) -> Option<u32>
    ensures { result ≡ rank_at graph.now node }
{
    graph.nodes().get(node as usize)?.rank
}

// Whether two ranks are one, or both are none.
fn is_same(one: Option<u32>, other: Option<u32>) -> bool
    ensures { IsTrue result ↔ one ≡ other }
{
    one == other
}

// Whether the nodes of each class have one rank in the first graph: that of the node whose number the class bears.
fn have_one_rank(live: &Graph, classes: &WalkClasses) -> bool
    ensures rules { IsGraph live.now }
    ensures one { IsTrue result ↔ ((p : ℕ) → p < length live.now.nodes → rank_at live.now p ≡ rank_at live.now (class_in classes.now.live p)) }
{
    let size = live.nodes().len() as u32;
    for node in 0..size {
        let class = class_of(classes.live.as_slice(), node);
        if !is_same(rank_of(live, node), rank_of(live, class)) {
            return false;
        }
    }
    true
}

// The first node of the second graph without the rank of its class.
fn first_by_classes(live: &Graph, graph: &Graph, classes: &WalkClasses) -> Option<u32>
    ensures rules { IsGraph graph.now }
    ensures first { IsFirstOrNone (λ n. rank_at graph.now n ≡ rank_at live.now (class_in classes.now.graph n)) (length graph.now.nodes) result }
{
    let size = graph.nodes().len() as u32;
    for node in 0..size {
        let class = class_of(classes.graph.as_slice(), node);
        if !is_same(rank_of(graph, node), rank_of(live, class)) {
            return Some(node);
        }
    }
    None
}

// The pair at a place.
fn pair_at(pairs: &IndexSet<(u32, u32)>, place: usize) -> (u32, u32)
    requires { place < length pairs.now.keys }
    ensures { slice_get pairs.now.keys place ≡ Some result }
{
    let Some(pair) = pairs.get_index(place) else {
        unreachable!()
    };
    *pair
}

// The lesser of two nodes, where there is a first one.
fn lesser(least: Option<u32>, node: u32) -> u32
    ensures { result ≡ lesser_of least node }
{
    match least {
        Some(other) => other.min(node),
        None => node,
    }
}

// The least node of the second graph that is paired with one of another rank.
fn least_unlike(live: &Graph, graph: &Graph, pairs: &IndexSet<(u32, u32)>) -> Option<u32>
    ensures { IsLeastUnlike live.now graph.now pairs.now.keys result }
{
    let size = live.nodes().len() as u32;
    let mut least = None;
    for place in 0..pairs.len() {
        let (paired, counted) = pair_at(pairs, place);
        let node = counted.saturating_sub(size);
        if !is_same(rank_of(live, paired), rank_of(graph, node)) {
            least = Some(lesser(least, node));
        }
    }
    least
}

// The first node of the second graph to which a path has a run that has one in the first graph to a node of another rank.
fn first_by_pairs(alloc: Global, live: &Graph, graph: &Graph) -> Result<Option<u32>, NoMemory>
    requires live { IsSingleStepped live.now }
    requires graph { IsSingleStepped graph.now }
    requires alike { (path : Items ℕ) → is_some (run live.now path) ≡ is_some (run graph.now path) }
    ensures rules { IsGraph graph.now }
    ensures first { IfOk result (λ o. IsFirstOrNone (λ n. (p : ℕ) → IsMet live.now graph.now p n → rank_at graph.now n ≡ rank_at live.now p) (length graph.now.nodes) o) }
{
    let size = live.nodes().len();
    let other = graph.nodes().len();
    if size + other > MAX_NODES {
        return Err(NoMemory);
    }
    let ways = both_ways(alloc, live, graph)?;
    let root = (size + other) as u32;
    let pairs = pairs_met(alloc, &ways, root, root + 1)?;
    Ok(least_unlike(live, graph, &pairs))
}

/// The first node that hasn't the rank of each walk that ends there. `live` is a faithful graph of the case, and the other one
/// has its walks. Where the nodes of each class have one rank in `live`, a node's class tells it; else the pairs of
/// nodes in which paths end are gone over, which may be as many as there are pairs.
pub fn rank_fault(
    alloc: Global,
    live: &Graph,
    graph: &Graph,
    classes: &WalkClasses,
) -> Result<Option<u32>, NoMemory>
    requires live { IsSingleStepped live.now }
    requires graph { IsSingleStepped graph.now }
    requires alike { AreAlike live.now graph.now classes.now }
    ensures { (net : PlainNet) (s : PlainStatement) (origin : ℕ → Bool) (external : Bool) → IsFaithful net s origin external live.now → HasWalks net s origin external graph.now
        → IfOk result (λ o. IsFirstOrNone (HasRank net s origin graph.now) (length graph.now.nodes) o) }
{
    if have_one_rank(live, classes) {
        return Ok(first_by_classes(live, graph, classes));
    }
    first_by_pairs(alloc, live, graph)
}
