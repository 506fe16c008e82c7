//! The relation of a graph.
ghost use Rattle.std.specs.Prelude.{◌≡◌, ℕ, Bool, IfOk, map};
ghost use Rattle.reach_prune.specs.Reachable.{IsReachOf, can_reach};
ghost use Rattle.relation_law.specs.Relations.{IsClosed, IsTotal};
ghost use Rattle.relation_law.specs.Rounds.{IsReach, TakesNothingMore};
ghost use Rattle.relation_law.specs.Views.{view_of};
ghost use Rattle.state_simulation.specs.Found.{IfPartial, IfTotal, IsFirstRound};
ghost use Rattle.state_simulation.specs.Held.{HasEach, IsLeftByRounds, IsRelationOf};
ghost use Rattle.state_simulation.specs.Targets.{AreLeft, AreNodeRows};

use crate::apart::{own_rows, stand_apart};
use crate::first::FirstRound;
use crate::maps::Maps;
use crate::rounds::all_rounds;
use crate::table::Relation;
use bit_rows::Rows;
use graph_base::Graph;
use input_output::NoMemory;
use net_base::{List, Loc, LocSet};
use reach_prune::Reach;
use std::alloc::{AllocError, Global};

/// Which of two nodes at one location of the graph may stand at least as high as the other, where these
/// locations are claimed.
pub fn relation(
    alloc: Global,
    graph: &Graph,
    reach: &Reach,
    claimed: &LocSet,
) -> Result<Relation, NoMemory>
    requires { IsReachOf graph.now reach.now }
    ensures relation { IfOk result (IsRelationOf graph.now) }
    ensures claimed { IfOk result (λ r. r.claimed ≡ claimed.now) }
    ensures rounds { IfOk result (IsLeftByRounds graph.now (can_reach reach.now)) }
{
    let rows = rows_left(alloc, graph, claimed)?;
    let relation = held(alloc, graph, claimed, rows)?;
    Ok(relation)
}

// For each node of the graph the nodes that the rounds leave above it.
fn rows_left(alloc: Global, graph: &Graph, claimed: &LocSet) -> Result<Rows, NoMemory>
    ensures rows { IfOk result (AreNodeRows graph.now) }
    ensures rounds { IfOk result (λ left. (reach : ℕ → ℕ → Bool) → IsReach (view_of graph.now claimed.now) reach
        → (rounds : ℕ) × TakesNothingMore (view_of graph.now claimed.now) reach rounds × AreLeft (view_of graph.now claimed.now) reach rounds left) }
{
    let maps = Maps::new(alloc, graph)?;
    all_rounds(alloc, &maps, claimed)
}

/// What the search for a relation that has a direction of each two nodes at one location finds.
#[derive(Drop)]
pub enum Search<'a> {
    /// The relation.
    Total(Relation),
    /// There is none. A refutation begins with the first round.
    Partial(FirstRound<'a>),
}

/// The same relation where it has a direction of each two nodes at one location, or else the first round: then no relation that
/// keeps the rules has. Where no two nodes stand at one location, each stands as high as itself alone, and no rounds are needed.
pub fn total_relation<'a>(
    alloc: Global,
    graph: &'a Graph,
    claimed: &LocSet,
) -> Result<Search<'a>, NoMemory>
    ensures relation { IfOk result (λ s. IfTotal s (IsRelationOf graph.now)) }
    ensures claimed { IfOk result (λ s. IfTotal s (λ r. r.claimed ≡ claimed.now)) }
    ensures total { IfOk result (λ s. IfTotal s HasEach) }
    ensures first { IfOk result (λ s. IfPartial s (IsFirstRound graph.now claimed.now)) }
    ensures partial { IfOk result (λ s. IfPartial s (λ first. (s : ℕ → ℕ → Bool) → IsClosed (view_of graph.now claimed.now) s → ¬ IsTotal (view_of graph.now claimed.now) s)) }
{
    if stand_apart(alloc, graph)? {
        let rows = own_rows(alloc, graph.nodes().len() as u32)?;
        let relation = held(alloc, graph, claimed, rows)?;
        return Ok(Search::Total(relation));
    }
    search_rounds(alloc, graph, claimed)
}

// The same by rounds.
fn search_rounds<'a>(
    alloc: Global,
    graph: &'a Graph,
    claimed: &LocSet,
) -> Result<Search<'a>, NoMemory>
    ensures relation { IfOk result (λ s. IfTotal s (IsRelationOf graph.now)) }
    ensures claimed { IfOk result (λ s. IfTotal s (λ r. r.claimed ≡ claimed.now)) }
    ensures total { IfOk result (λ s. IfTotal s HasEach) }
    ensures first { IfOk result (λ s. IfPartial s (IsFirstRound graph.now claimed.now)) }
    ensures partial { IfOk result (λ s. IfPartial s (λ first. (s : ℕ → ℕ → Bool) → IsClosed (view_of graph.now claimed.now) s → ¬ IsTotal (view_of graph.now claimed.now) s)) }
{
    let mut first = FirstRound::new(alloc, graph, claimed)?;
    let is_total = first.find_total(alloc, claimed)?;
    if !is_total {
        return Ok(Search::Partial(first));
    }
    let relation = held(alloc, graph, claimed, first.into_left())?;
    Ok(Search::Total(relation))
}

// The relation of these rows of a graph's nodes.
fn held(alloc: Global, graph: &Graph, claimed: &LocSet, rows: Rows) -> Result<Relation, NoMemory>
    requires { AreNodeRows graph.now rows }
    ensures { IfOk result (λ r. r ≡ record { places = map (λ node. node.loc) graph.now.nodes; claimed = claimed.now; rows = rows }) }
{
    let places = places(alloc, graph)?;
    Ok(Relation::new(places, *claimed, rows))
}

// The location of each node.
fn places(alloc: Global, graph: &Graph) -> Result<List<Loc>, AllocError>
    ensures { IfOk result (λ places. places ≡ map (λ node. node.loc) graph.now.nodes) }
{
    let mut places = List::new(alloc);
    for node in graph.nodes() {
        places.push(node.loc)?;
    }
    Ok(places)
}
