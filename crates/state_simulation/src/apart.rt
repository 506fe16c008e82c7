//! Graphs in which no two nodes stand at one location.
ghost use Rattle.std.specs.Prelude.{◌≡◌, ◌<◌, ◌≤◌, ◌==◌, ℕ, IfOk, IsTrue, not};
ghost use Rattle.bit_rows.specs.Tables.{has_at};
ghost use Rattle.graph_base.specs.declared.graph.TheConstants.{MAX_NODES};
ghost use Rattle.state_simulation.specs.Apart.{StandApart};
ghost use Rattle.state_simulation.specs.Held.{IsSquare};

use crate::maps::location_count;
use bit_rows::Rows;
use graph_base::Graph;
use input_output::NoMemory;
use std::alloc::{AllocError, Global};

/// Whether no two nodes stand at one location.
pub fn stand_apart(alloc: Global, graph: &Graph) -> Result<bool, AllocError>
    ensures apart { IfOk result (λ apart. IsTrue apart → StandApart graph.now) }
    ensures together { IfOk result (λ apart. IsTrue (not apart) → ¬ StandApart graph.now) }
{
    let mut met = vec![in alloc; false; location_count(graph) as usize]?;
    for node in 0..graph.nodes().len() as u32 {
        let place = graph.location(node).number() as usize;
        if met[place] {
            return Ok(false);
        }
        met[place] = true;
    }
    Ok(true)
}

/// A row for each of so many nodes, with a bit for that node alone.
pub fn own_rows(alloc: Global, size: u32) -> Result<Rows, NoMemory>
    requires { size ≤ MAX_NODES }
    ensures square { IfOk result (IsSquare size) }
    ensures own { IfOk result (λ rows. (n b : ℕ) → n < size → has_at rows n b ≡ (b == n)) }
{
    let mut rows = Rows::new(alloc, size, size)?;
    for node in 0..size {
        rows.set(node, node);
    }
    Ok(rows)
}
