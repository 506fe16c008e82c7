//! Statements that govern no prefix but originated ones.
ghost use Rattle.std.specs.Prelude.{◌≡◌, ◌++◌, map, List as Items, IfOk, OnOk};
ghost use Rattle.std.specs.List.{list_all};
ghost use Rattle.net_base.specs.Prefixes.{PlainPattern, only};
ghost use Rattle.policy_base.specs.Policies.{policy_of};
ghost use Rattle.policy_base.specs.declared.policy.Origin.{Origin as PlainOrigin};
ghost use Rattle.lint_cover.specs.Covered.{covered};
ghost use Rattle.lint_cover.specs.Tables.{Holds};
ghost use Rattle.own_space.specs.Covers.{covered_in};

use input_output::NoMemory;
use lint_cover::PatternTable;
use net_base::{Pattern, known_prefix};
use policy_base::{Origin, Policy};
use std::alloc::Global;

/// Whether every prefix of a pattern is in one that was put in.
pub fn is_covered(table: &PatternTable, pattern: Pattern) -> bool
    ensures { (qs : Items PlainPattern) → Holds table.now qs → result ≡ covered qs pattern }
{
    let base = pattern.base();
    known_prefix(base);
    let _upto = pattern.upto();
    table.covers(pattern)
}

/// A table of the originated prefixes.
pub fn table_of(alloc: Global, origins: &[Origin]) -> Result<PatternTable, NoMemory>
    ensures { IfOk result (λ table. Holds table (map (λ (o : PlainOrigin). only o.prefix) origins.now)) }
{
    let mut table = PatternTable::new(alloc);
    for origin in origins {
        table.note(Pattern::only(origin.prefix))?;
    }
    Ok(table)
}

// Whether every prefix of each pattern is in one that was put in.
fn are_covered(table: &PatternTable, patterns: &[Pattern]) -> bool
    ensures { (qs : Items PlainPattern) → Holds table.now qs → result ≡ list_all (covered qs) patterns.now }
{
    for pattern in patterns {
        if !is_covered(table, *pattern) {
            return false;
        }
    }
    true
}

// Puts patterns in.
fn note_all(table: &mut PatternTable, patterns: &[Pattern]) -> Result<(), NoMemory>
    ensures { (qs : Items PlainPattern) → Holds table.old qs → OnOk result (Holds table.new (qs ++ patterns.now)) }
{
    for pattern in patterns {
        table.note(*pattern)?;
    }
    Ok(())
}

/// For each statement of a policy whether every prefix of its patterns is originated, or in a pattern of a statement before it.
pub fn covered_by_others(alloc: Global, policy: &Policy) -> Result<Vec<bool>, NoMemory>
    ensures { IfOk result (λ marks. marks.items ≡ covered_in (policy_of policy.now)) }
{
    let mut table = table_of(alloc, policy.origins())?;
    let mut marks = Vec::new(alloc);
    for statement in policy.statements() {
        let patterns = statement.patterns.as_slice();
        marks.push(are_covered(&table, patterns))?;
        note_all(&mut table, patterns)?;
    }
    Ok(marks)
}
