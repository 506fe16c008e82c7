//! What a cut leaves of the part of a graph that failures leave.
ghost use Rattle.std.specs.Prelude.{◌≡◌, ℕ, IfOk, filter, not};
ghost use Rattle.graph_base.specs.Runs.{place_of};
ghost use Rattle.impact_law.specs.Cuts.{is_cut as is_cut_by};
ghost use Rattle.whatif_report.specs.Opened.{without_cut as without_cut_of};
ghost use Rattle.whatif_report.specs.Shifting.{over_link};

use crate::links::is_over;
use crate::moving::is_cut;
use graph_base::Graph;
use impact_law::Cut;
use net_base::List;
use std::alloc::{AllocError, Global};

// The starts of a graph at locations that aren't cut.
fn starts_without(alloc: Global, graph: &Graph, cut: &Cut) -> Result<List<u32>, AllocError>
    ensures { IfOk result (λ starts. starts ≡ filter (λ n. not (is_cut_by cut.now (place_of graph.now n))) graph.now.starts) }
{
    let mut starts = List::new(alloc);
    for start in graph.starts() {
        if !is_cut(cut, graph.location(*start)) {
            starts.push(*start)?;
        }
    }
    Ok(starts)
}

// The steps of a graph that aren't over a cut.
fn steps_without(alloc: Global, graph: &Graph, cut: &Cut) -> Result<List<(u32, u32)>, AllocError>
    ensures { IfOk result (λ steps. steps ≡ filter (λ (e : ℕ × ℕ). not (over_link cut.now (place_of graph.now e.0) (place_of graph.now e.1))) graph.now.steps) }
{
    let mut steps = List::new(alloc);
    for step in graph.steps() {
        let ends = (graph.location(step.0), graph.location(step.1));
        if !is_over(cut, ends) {
            steps.push(*step)?;
        }
    }
    Ok(steps)
}

/// What a cut leaves of a graph.
pub(crate) fn without_cut(alloc: Global, graph: &Graph, cut: &Cut) -> Result<Graph, AllocError>
    ensures { IfOk result (λ left. left ≡ without_cut_of cut.now graph.now) }
{
    let nodes = List::from_vec(Vec::from_slice(alloc, graph.nodes())?);
    let starts = starts_without(alloc, graph, cut)?;
    let steps = steps_without(alloc, graph, cut)?;
    Ok(Graph::new(nodes, starts, steps))
}
