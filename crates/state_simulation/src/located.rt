//! The nodes of each location, as rows.
ghost use Rattle.std.specs.Prelude.{IfOk};
ghost use Rattle.state_simulation.specs.Looked.{AreLocated};

use crate::maps::location_count;
use bit_rows::Rows;
use graph_base::Graph;
use input_output::NoMemory;
use std::alloc::Global;

/// A row for each location, up to the greatest one of a node, with a bit for each node of the graph that stands there.
pub fn located_rows(alloc: Global, graph: &Graph) -> Result<Rows, NoMemory>
    ensures { IfOk result (AreLocated graph.now) }
{
    let size = graph.nodes().len() as u32;
    let mut rows = Rows::new(alloc, location_count(graph), size)?;
    for node in 0..size {
        rows.set(graph.location(node).number() as u32, node);
    }
    Ok(rows)
}
