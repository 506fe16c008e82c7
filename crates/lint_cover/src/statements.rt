//! Statements whose prefixes are all governed by earlier ones.
ghost use Rattle.std.specs.Prelude.{IfOk, map};
ghost use Rattle.policy_base.specs.Policies.{plain_statement};
ghost use Rattle.lint_cover.specs.Statements.{AreMarked};

use crate::table::PatternTable;
use input_output::NoMemory;
use policy_base::Statement;
use std::alloc::Global;

/// For each statement whether every prefix that its patterns contain is in a pattern of one before it.
///
/// Each pattern is put into one table, so the time grows as the number of patterns times the number of different lengths,
/// at most 33, of those around and inside of them, and not as its square.
pub fn covered_statements(alloc: Global, statements: &[Statement]) -> Result<Vec<bool>, NoMemory>
    ensures { IfOk result (λ marks. AreMarked (map plain_statement statements.now) marks.items) }
{
    let mut table = PatternTable::new(alloc);
    let mut marks = Vec::new(alloc);
    for statement in statements {
        let is_covered = table.take_in(statement.patterns.as_slice())?;
        marks.push(is_covered)?;
    }
    Ok(marks)
}
