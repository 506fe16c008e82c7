//! The part of a graph that failures leave, and who chooses there.
ghost use Rattle.std.specs.Prelude.{◌≡◌, ℕ, IfOk, filter};
ghost use Rattle.net_base.specs.Sets.{holds};
ghost use Rattle.settled_outcome.specs.Surviving.{chooses_by, left_by, lives_by, steps_by};

use graph_base::Graph;
use net_base::{List, LocSet, Net, known_net};
use scenarios::Survivors;
use std::alloc::{AllocError, Global};

// The starts of a graph at live locations.
fn open_starts(alloc: Global, survivors: &Survivors, graph: &Graph) -> Result<List<u32>, AllocError>
    ensures { IfOk result (λ starts. starts ≡ filter (lives_by survivors.now graph.now) graph.now.starts) }
{
    let mut starts = List::new(alloc);
    for start in graph.starts() {
        if !survivors.is_dead(graph.location(*start)) {
            starts.push(*start)?;
        }
    }
    Ok(starts)
}

// The steps of a graph over which what is announced comes.
fn open_steps(
    alloc: Global,
    net: &Net,
    survivors: &Survivors,
    graph: &Graph,
) -> Result<List<(u32, u32)>, AllocError>
    ensures { IfOk result (λ steps. steps ≡ filter (steps_by net.now survivors.now graph.now) graph.now.steps) }
{
    let mut steps = List::new(alloc);
    for step in graph.steps() {
        if survivors.carries(net, graph.location(step.0), graph.location(step.1)) {
            steps.push(*step)?;
        }
    }
    Ok(steps)
}

/// The part of a graph that is left.
pub fn open_graph(
    alloc: Global,
    net: &Net,
    survivors: &Survivors,
    graph: &Graph,
) -> Result<Graph, AllocError>
    ensures { IfOk result (λ left. left ≡ left_by net.now survivors.now graph.now) }
{
    let nodes = List::from_vec(Vec::from_slice(alloc, graph.nodes())?);
    let starts = open_starts(alloc, survivors, graph)?;
    let steps = open_steps(alloc, net, survivors, graph)?;
    Ok(Graph::new(nodes, starts, steps))
}

/// The live routers that aren't among the origins.
pub(crate) fn choosers(net: &Net, survivors: &Survivors, origins: &LocSet) -> LocSet
    ensures { (l : ℕ) → holds result l ≡ chooses_by net.now survivors.now origins.now l }
{
    known_net(net);
    net.locations()
        .without(&net.peer_set())
        .without(&survivors.dead)
        .without(origins)
}
