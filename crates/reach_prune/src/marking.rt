//! The nodes to which steps lead.
ghost use Rattle.std.specs.Prelude.{◌≡◌, ◌↔◌, ℕ, ◌<◌, All, IfOk, IsTrue, length};
ghost use Rattle.reach_prune.specs.Searches.{is_marked};
ghost use Rattle.reach_prune.specs.Ways.{LeadsFrom};

use crate::search::reached;
use crate::steps::{Way, neighbours};
use graph_base::Graph;
use input_output::NoMemory;
use std::alloc::Global;

/// Marks the nodes to which steps lead from the first ones, forward or backward; the first ones are marked too.
pub fn marked(alloc: Global, graph: &Graph, way: Way, first: &[u32]) -> Result<Vec<bool>, NoMemory>
    requires { All (λ n. n < length graph.now.nodes) first.now }
    ensures size { IfOk result (λ marks. length marks.items ≡ length graph.now.nodes) }
    ensures marks { IfOk result (λ marks. (n : ℕ) → n < length graph.now.nodes → IsTrue (is_marked marks.items n) ↔ LeadsFrom way graph.now first.now n) }
{
    let lists = neighbours(alloc, graph, way)?;
    let marks = reached(alloc, &lists, first)?;
    Ok(marks)
}
