//! Marks of links.
ghost use Rattle.std.specs.Prelude.{◌≡◌, ◌<◌, IfOk, length};
ghost use Rattle.std.specs.List.{items_where_true};
ghost use Rattle.graph_base.specs.Runs.{place_of};
ghost use Rattle.outcome_claims.specs.Marks.{AreMarks, heard_pairs as ends_heard};

use graph_base::Graph;
use net_base::{List, Loc, Net};
use std::alloc::{AllocError, Global};

/// A mark for each link: whether it is that of one of the pairs, either end first.
pub fn marks_of(alloc: Global, net: &Net, pairs: &[(Loc, Loc)]) -> Result<Vec<bool>, AllocError>
    ensures { IfOk result (λ marks. AreMarks net.now pairs.now marks.items) }
{
    let mut marks = vec![in alloc; false; net.links().len()]?;
    for pair in pairs {
        if let Some(place) = net.link_place(pair.0, pair.1) {
            marks[place] = true;
        }
    }
    Ok(marks)
}

/// The links that are marked, in their order.
#[tactic(auto, using(crate::proofs::Marking::picked_more, crate::proofs::Marking::picked_same))]
pub fn marked_links(
    alloc: Global,
    net: &Net,
    marks: &[bool],
) -> Result<List<(Loc, Loc)>, AllocError>
    requires { length marks.now ≡ length net.now.links }
    ensures { IfOk result (λ links. links ≡ items_where_true marks.now net.now.links) }
{
    let mut links = List::new(alloc);
    for place in 0..marks.len() {
        if marks[place] {
            links.push(net.links()[place])?;
        }
    }
    Ok(links)
}

/// The locations of the ends of a step.
pub fn ends(graph: &Graph, step: (u32, u32)) -> (Loc, Loc)
    requires from { step.0 < length graph.now.nodes }
    requires to { step.1 < length graph.now.nodes }
    ensures { result ≡ (place_of graph.now step.0, place_of graph.now step.1) }
{
    (graph.location(step.0), graph.location(step.1))
}

/// The ends of the steps into nodes that hear, a router's first.
pub fn heard_pairs(alloc: Global, graph: &Graph) -> Result<Vec<(Loc, Loc)>, AllocError>
    ensures { IfOk result (λ pairs. pairs.items ≡ ends_heard graph.now) }
{
    let mut pairs = Vec::new(alloc);
    for step in graph.steps() {
        if graph.hears(step.1) {
            pairs.push(ends(graph, *step))?;
        }
    }
    Ok(pairs)
}
