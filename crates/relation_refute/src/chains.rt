//! The lines of a refutation.
ghost use Rattle.std.specs.Prelude.{◌≡◌, ◌⊎◌, ◌↔◌, ◌<◌, ℕ, IfOk, IsTrue, OnOk, Some, nat_lt};
ghost use Rattle.std.specs.List.Sorted.{IsStrictlySortedBy};
ghost use Rattle.bit_rows.specs.Tables.{has_at};
ghost use Rattle.graph_base.specs.Graphs.{IsGraph};
ghost use Rattle.graph_base.specs.Refuting.{HasSingleSteps};
ghost use Rattle.list_law.specs.Members.{IsIn};
ghost use Rattle.relation_law.specs.Relations.{Pair};
ghost use Rattle.relation_law.specs.Views.{view_of};
ghost use Rattle.relation_refute.specs.Cells.{IsFallen, round_in};
ghost use Rattle.relation_refute.specs.Lines.{AreLinesOf, IsLineOf, Led, line_order};
ghost use Rattle.relation_refute.specs.declared.chains.Line.{Line as PlainLine};

use crate::falls::Fallen;
use crate::faults::fault_of;
use graph_base::Removed;
use net_base::{List, Loc, LocSet};
use state_simulation::Maps;
use std::alloc::{AllocError, Global};

/// A pair that went, with its round: in the order of the lines of a refutation.
#[derive(Clone, Copy, Debug, PartialEq, Eq, PartialOrd, Ord)]
pub struct Line {
    round: u32,
    router: Loc,
    better: u32,
    worse: u32,
}

/// Adds the pair of m above n, the pair on which it rests, and so on.
pub fn add_chain(
    lines: &mut Vec<Line>,
    maps: &Maps,
    fallen: &Fallen,
    claimed: &LocSet,
    m: u32,
    n: u32,
) -> Result<(), AllocError>
    requires fallen { IsFallen maps.now.graph.now claimed.now fallen.now }
    requires graph { IsGraph maps.now.graph.now }
    requires single { HasSingleSteps maps.now.graph.now }
    requires pair { Pair (view_of maps.now.graph.now claimed.now) m n }
    requires went { IsTrue (nat_lt 0 (round_in fallen.now.cells m n)) }
    ensures kept { OnOk result ((l : PlainLine) → IsIn lines.old.items l → IsIn lines.new.items l) }
    ensures each { OnOk result ((l : PlainLine) → IsIn lines.new.items l → IsIn lines.old.items l
        ⊎ IsLineOf maps.now.graph.now claimed.now fallen.now l × Led (view_of maps.now.graph.now claimed.now) (has_at fallen.now.onwards) m n l.better l.worse) }
    ensures all { OnOk result
        ((a b : ℕ) → Led (view_of maps.now.graph.now claimed.now) (has_at fallen.now.onwards) m n a b → (l : PlainLine) × IsIn lines.new.items l × (l.better ≡ a) × (l.worse ≡ b)) }
{
    let mut next = Some((m, n));
    'chain: while let Some((better, worse)) = next {
        let round = fallen.cells.round(better, worse);
        lines.push(Line {
            round,
            router: maps.graph().location(worse),
            better,
            worse,
        })?;
        let fault = fault_of(maps, fallen, claimed, round, better, worse);
        next = fault.rests;
    }
    Ok(())
}

/// In order, and each once.
pub fn settle_lines(lines: &mut Vec<Line>)
    ensures same { (l : PlainLine) → IsIn lines.new.items l ↔ IsIn lines.old.items l }
    ensures order { IsStrictlySortedBy line_order lines.new.items }
{
    lines.sort_unstable();
    lines.dedup();
}

/// The lines with their reasons.
pub fn reasoned(
    alloc: Global,
    maps: &Maps,
    fallen: &Fallen,
    claimed: &LocSet,
    lines: &[Line],
) -> Result<List<Removed>, AllocError>
    requires fallen { IsFallen maps.now.graph.now claimed.now fallen.now }
    requires graph { IsGraph maps.now.graph.now }
    requires single { HasSingleSteps maps.now.graph.now }
    requires lines { (l : PlainLine) → IsIn lines.now l → IsLineOf maps.now.graph.now claimed.now fallen.now l }
    ensures { IfOk result (AreLinesOf (view_of maps.now.graph.now claimed.now) (has_at fallen.now.onwards) lines.now) }
{
    let mut removed = List::new(alloc);
    for line in lines {
        let fault = fault_of(maps, fallen, claimed, line.round, line.better, line.worse);
        removed.push(Removed {
            better: line.better,
            worse: line.worse,
            round: line.round as u64,
            why: fault.why,
        })?;
    }
    Ok(removed)
}
