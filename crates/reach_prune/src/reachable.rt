//! Plain reachability.
ghost use Rattle.std.specs.Prelude.{◌≡◌, ◌↔◌, ℕ, ◌<◌, IfOk, IsTrue, length};
ghost use Rattle.bit_rows.specs.Tables.{has_at};
ghost use Rattle.reach_prune.specs.Reachable.{IsReachOf};
ghost use Rattle.reach_prune.specs.Ways.{LeadsAlong};

use crate::steps::{Way, neighbours};
use crate::sweep::Sweep;
use crate::table::Reach;
use bit_rows::Rows;
use graph_base::Graph;
use input_output::NoMemory;
use std::alloc::Global;

/// Which nodes of the graph can be reached from which.
pub fn reach(alloc: Global, graph: &Graph) -> Result<Reach, NoMemory>
    ensures { IfOk result (IsReachOf graph.now) }
{
    let rows = rows_along(alloc, graph, Way::Backward)?;
    Ok(Reach::new(rows))
}

/// A row for each node with the nodes to which steps lead from it, forward or backward. A node is in its own row.
pub fn rows_along(alloc: Global, graph: &Graph, way: Way) -> Result<Rows, NoMemory>
    ensures count { IfOk result (λ rows. rows.count ≡ length graph.now.nodes) }
    ensures bits { IfOk result (λ rows. rows.bits ≡ length graph.now.nodes) }
    ensures exact { IfOk result (λ rows. (a b : ℕ) → a < length graph.now.nodes → IsTrue (has_at rows a b) ↔ LeadsAlong way graph.now a b) }
{
    let size = graph.nodes().len() as u32;
    let lists = neighbours(alloc, graph, way)?;
    let mut sweep = Sweep::new(alloc, &lists)?;
    for place in 0..size {
        sweep.search(way, &lists, place)?;
    }
    Ok(sweep.rows)
}
