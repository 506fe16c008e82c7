//! The first rounds, up to one that leaves two nodes at one location without a direction.
ghost use Rattle.std.specs.Prelude.{◌≡◌, ◌+◌, ℕ, Bool, IfOk};
ghost use Rattle.relation_law.specs.Relations.{IsClosed, IsTotal, Pair};
ghost use Rattle.relation_law.specs.Views.{view_of};
ghost use Rattle.relation_refute.specs.Cells.{AreCells, IsFallen, went};
ghost use Rattle.state_simulation.specs.Looked.{shown};
ghost use Rattle.state_simulation.specs.Stages.{AreFirst};

use crate::cells::Cells;
use bit_rows::Rows;
use input_output::NoMemory;
use net_base::LocSet;
use state_simulation::{Maps, Rounds};
use std::alloc::Global;

/// In which round each pair of one location went, up to the last one, and what can be reached from each node.
#[derive(Drop)]
pub struct Fallen {
    /// The round in which each pair went.
    pub cells: Cells,
    /// A row for each node, with a bit for each node that can be reached from it.
    pub onwards: Rows,
    /// The number, from 1, of the round that left two nodes without a direction.
    pub last: u32,
}

impl Fallen {
    /// The rounds, from behind the first one on, of a graph of which no relation that keeps the rules has a direction of each two
    /// nodes at one location.
    pub fn new(
        alloc: Global,
        maps: &Maps,
        mut rounds: Rounds,
        claimed: &LocSet,
    ) -> Result<Fallen, NoMemory>
        requires first { AreFirst maps.now.graph.now claimed.now rounds }
        requires partial { (s : ℕ → ℕ → Bool) → IsClosed (view_of maps.now.graph.now claimed.now) s → ¬ IsTotal (view_of maps.now.graph.now claimed.now) s }
        ensures { IfOk result (IsFallen maps.now.graph.now claimed.now) }
    {
        rounds.look_onwards(alloc, maps)?;
        let mut cells = Cells::new(alloc, maps)?;
        let mut last: u32 = 1;
        cells.mark(maps, &rounds.left, &rounds.touched, last);
        let mut is_open = rounds.is_open(maps);
        'rounds: while !is_open {
            rounds.advance(maps);
            last = next_round(last)?;
            cells.mark(maps, &rounds.left, &rounds.touched, last);
            is_open = rounds.is_open(maps);
        }
        let onwards = rounds.onwards.unwrap();
        Ok(Fallen {
            cells,
            onwards,
            last,
        })
    }

    /// Whether the first of two nodes at one location went above the second before this round.
    pub fn went_before(&self, maps: &Maps, round: u32, a: u32, b: u32) -> bool
        requires cells { AreCells maps.now.graph.now self.now.cells }
        requires pair { Pair (shown maps.now.graph.now) a b }
        ensures { result ≡ went self.now round a b }
    {
        let went = self.cells.round(a, b);
        went > 0 && went < round
    }
}

// The number of the next round. There is none past the greatest number of 32 bits, and no memory for the pairs of so many rounds.
fn next_round(round: u32) -> Result<u32, NoMemory>
    ensures { IfOk result (λ next. next ≡ round + 1) }
{
    if round == u32::MAX {
        return Err(NoMemory);
    }
    Ok(round + 1)
}
