//! Starts and steps of a graph, by the locations to which they lead.
ghost use Rattle.std.specs.Prelude.{◌≡◌, ℕ, OnOk, filter};
ghost use Rattle.std.specs.List.Sorted.{IsNonDecreasingBy};
ghost use Rattle.pair_graph.specs.Ways.{AreLow, AreInOrder, comes_from, taken, turn_of};

use std::alloc::AllocError;

/// A start of a graph, or a step.
#[derive(Clone, Copy)]
pub(crate) struct Way {
    /// The number of the node that steps, and 0 for a start.
    pub(crate) from: u32,
    /// The location to which it leads.
    pub(crate) place: u16,
    /// The number of the node there.
    pub(crate) to: u32,
}

impl Way {
    // When it has its turn among others: by the node that steps, and then by location.
    fn turn(&self) -> u64
        ensures { result ≡ turn_of self.now }
    {
        self.from as u64 * 65536 + self.place as u64
    }
}

/// Puts starts in order of location. Those at one location stay as they are.
pub(crate) fn sort_by_place(ways: &mut Vec<Way>) -> Result<(), AllocError>
    ensures order { OnOk result (AreInOrder ways.new.items) }
    ensures taken { (l : ℕ) → taken ways.new.items l ≡ taken ways.old.items l }
{
    ways.sort_by_key(|way| way.place)?;
    Ok(())
}

/// Puts steps in order of the nodes that step, and then of location. Those of one node to one location stay as they are.
pub(crate) fn sort_by_turn(ways: &mut Vec<Way>) -> Result<(), AllocError>
    requires low { AreLow ways.old.items }
    ensures order { OnOk result (IsNonDecreasingBy turn_of ways.new.items) }
    ensures low { AreLow ways.new.items }
    ensures taken { (n l : ℕ) → taken (filter (comes_from n) ways.new.items) l ≡ taken (filter (comes_from n) ways.old.items) l }
{
    ways.sort_by_key(|way| way.turn())?;
    Ok(())
}
