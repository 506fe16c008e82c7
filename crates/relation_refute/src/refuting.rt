//! The refutation of a graph.
ghost use Rattle.std.specs.Prelude.{◌≡◌, ◌↔◌, ℕ, Bool, IfOk, IfSome, None};
ghost use Rattle.graph_base.specs.Refuting.{HasSingleSteps, Refutes};
ghost use Rattle.net_base.specs.Sets.{holds};
ghost use Rattle.reach_prune.specs.Reachable.{IsReachOf};
ghost use Rattle.relation_law.specs.Choosing.{IsRefutationOf};
ghost use Rattle.relation_law.specs.Relations.{IsClosed, IsTotal};
ghost use Rattle.relation_law.specs.Views.{view_of};
ghost use Rattle.relation_refute.specs.Cells.{IsFallen};
ghost use Rattle.state_simulation.specs.Found.{IsFirstRound};
ghost use Rattle.state_simulation.specs.Held.{HasEach, IsRelationOf};

use crate::chains::{add_chain, reasoned, settle_lines};
use crate::falls::Fallen;
use crate::parted::{first_parted, least_parted};
use graph_base::{Graph, Refutation};
use input_output::NoMemory;
use net_base::LocSet;
use reach_prune::Reach;
use state_simulation::{FirstRound, Maps, Relation};
use std::alloc::Global;

/// Why no preference numbers meet the rules on a graph of which this is the relation, for these claimed locations: none exactly
/// where it is total. Who has a relation asks this; the compiler, which has the first round alone, asks `refutation`.
pub fn refute(
    alloc: Global,
    graph: &Graph,
    reach: &Reach,
    claimed: &LocSet,
    relation: &Relation,
) -> Result<Option<Refutation>, NoMemory>
    requires reach { IsReachOf graph.now reach.now }
    requires relation { IsRelationOf graph.now relation.now }
    requires claimed { relation.now.claimed ≡ claimed.now }
    requires single { HasSingleSteps graph.now }
    ensures total { IfOk result (λ r. (r ≡ None) ↔ HasEach relation.now) }
    ensures chosen { IfOk result (λ r. IfSome r (IsRefutationOf graph.now claimed.now)) }
    ensures refutes { IfOk result (λ r. IfSome r (λ r. Refutes graph.now (holds claimed.now) r.first r.second r.lines)) }
{
    if relation.is_total() {
        return Ok(None);
    }
    let begun = FirstRound::new(alloc, graph, claimed)?;
    let refutation = refutation(alloc, begun, claimed)?;
    Ok(Some(refutation))
}

/// Why no preference numbers meet the rules on a graph of which no relation that keeps the rules has a direction of each
/// two nodes at one location. The rounds are those of the relation, up to the first one that leaves two such nodes. They go
/// on from the first round.
pub fn refutation(
    alloc: Global,
    begun: FirstRound,
    claimed: &LocSet,
) -> Result<Refutation, NoMemory>
    requires first { IsFirstRound begun.maps.graph.now claimed.now begun }
    requires single { HasSingleSteps begun.maps.graph.now }
    requires partial { (s : ℕ → ℕ → Bool) → IsClosed (view_of begun.maps.graph.now claimed.now) s → ¬ IsTotal (view_of begun.maps.graph.now claimed.now) s }
    ensures chosen { IfOk result (IsRefutationOf begun.entry.maps.graph.now claimed.now) }
    ensures refutes { IfOk result (λ r. Refutes begun.entry.maps.graph.now (holds claimed.now) r.first r.second r.lines) }
{
    let rounds = begun.rounds;
    let fallen = Fallen::new(alloc, &begun.maps, rounds, claimed)?;
    let refutation = told(alloc, &begun.maps, &fallen, claimed)?;
    Ok(refutation)
}

// The refutation that the rounds tell.
fn told(
    alloc: Global,
    maps: &Maps,
    fallen: &Fallen,
    claimed: &LocSet,
) -> Result<Refutation, NoMemory>
    requires fallen { IsFallen maps.now.graph.now claimed.now fallen.now }
    requires single { HasSingleSteps maps.now.graph.now }
    ensures chosen { IfOk result (IsRefutationOf maps.now.graph.now claimed.now) }
    ensures refutes { IfOk result (λ r. Refutes maps.now.graph.now (holds claimed.now) r.first r.second r.lines) }
{
    let nodes = maps.graph().nodes();
    let first = first_parted(maps, &fallen.cells).unwrap();
    let second = least_parted(maps, &fallen.cells, first).unwrap();
    let router = nodes[first as usize].loc;
    let mut lines = Vec::new(alloc);
    add_chain(&mut lines, maps, fallen, claimed, first, second)?;
    add_chain(&mut lines, maps, fallen, claimed, second, first)?;
    settle_lines(&mut lines);
    let lines = reasoned(alloc, maps, fallen, claimed, &lines)?;
    Ok(Refutation {
        router,
        first,
        second,
        lines,
    })
}
