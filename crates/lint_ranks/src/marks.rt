//! Ranks that are marked, in a row of bits for each statement.
ghost use Rattle.std.specs.Prelude.{◌≡◌, ℕ, ◌<◌, ◌==◌, ◌&&◌, ◌||◌, IfSome};
ghost use Rattle.std.specs.List.{AllByRecursion};
ghost use Rattle.graph_base.specs.declared.graph.Node.{Node as PlainNode};
ghost use Rattle.bit_rows.specs.Tables.{IsSameSize, has_at};
ghost use Rattle.lint_ranks.specs.Marks.{is_rank, some_has_rank};

use bit_rows::Rows;
use graph_base::Node;

// Sets the bit of a rank, where there is one.
fn mark(marks: &mut Rows, row: u32, rank: Option<u32>)
    requires row { row < marks.old.count }
    requires rank { IfSome rank (λ k. k < marks.old.bits) }
    ensures size { IsSameSize marks.new marks.old }
    ensures bits { (r b : ℕ) → r < marks.old.count → has_at marks.new r b ≡ (has_at marks.old r b || (r == row && is_rank b rank)) }
{
    if let Some(rank) = rank {
        marks.set(row, rank);
    }
}

/// Sets in the row the bit of each rank that a node has.
pub fn mark_ranks(marks: &mut Rows, row: u32, nodes: &[Node])
    requires row { row < marks.old.count }
    requires ranks { AllByRecursion (λ (node : PlainNode). IfSome node.rank (λ k. k < marks.old.bits)) nodes.now }
    ensures size { IsSameSize marks.new marks.old }
    ensures bits { (r b : ℕ) → r < marks.old.count → has_at marks.new r b ≡ (has_at marks.old r b || (r == row && some_has_rank b nodes.now)) }
{
    for node in nodes {
        mark(marks, row, node.rank);
    }
}
