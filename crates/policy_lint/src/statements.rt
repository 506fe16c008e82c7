//! What is found of statements and of their alternatives.
ghost use Rattle.std.specs.Prelude.{◌≡◌, ◌++◌, [], ◌+◌, ◌==◌, ◌<◌, ◌≤◌, ℕ, length, map, Some, true, IsTrue, IfOk, OnOk, slice_get, if◌then◌else◌};
ghost use Rattle.std.specs.List.{list_any};
ghost use Rattle.policy_base.specs.declared.limits.TheConstants.{ALTERNATIVES};
ghost use Rattle.policy_base.specs.declared.case.Case.{Case as PlainCase};
ghost use Rattle.policy_base.specs.Meaning.{alternative_count};
ghost use Rattle.policy_base.specs.Policies.{PlainStatement, plain_statement, ranking_of};
ghost use Rattle.policy_lint.specs.Told.{marked, told_covered, told_from, told_idle, told_unreached};

use crate::finding::{Finding, push_if};
use bit_rows::Rows;
use policy_base::{Case, Ranked, Statement, alternatives};
use std::alloc::{AllocError, Global};

/// For each number of a statement, and for 0, whether a case has it.
pub fn statements_with_cases(
    alloc: Global,
    statements: usize,
    cases: &[Case],
) -> Result<Vec<bool>, AllocError>
    requires { statements < 4294967295 }
    ensures size { IfOk result (λ have. length have.items ≡ statements + 1) }
    ensures marks { IfOk result (λ have. (n : ℕ) → n ≤ statements → marked have.items n ≡ list_any (λ (c : PlainCase). c.statement == n) cases.now) }
{
    let mut have = vec![in alloc; false; statements + 1]?;
    for case in cases {
        let number = case.statement as usize;
        if number < have.len() {
            have[number] = true;
        }
    }
    Ok(have)
}

/// Adds the statements that are marked as covered.
pub fn push_covered(findings: &mut Vec<Finding>, covered: &[bool]) -> Result<(), AllocError>
    requires { length covered.now < 4294967295 }
    ensures { OnOk result (findings.new.items ≡ findings.old.items ++ told_covered covered.now (length covered.now)) }
{
    for place in 0..covered.len() {
        let number = place as u32 + 1;
        push_if(findings, covered[place], Finding::Covered(number))?;
    }
    Ok(())
}

/// Adds the statements, of so many, that no case has.
pub fn push_idle(
    findings: &mut Vec<Finding>,
    have: &[bool],
    statements: usize,
) -> Result<(), AllocError>
    requires few { statements < 4294967295 }
    requires size { length have.now ≡ statements + 1 }
    ensures { OnOk result (findings.new.items ≡ findings.old.items ++ told_idle have.now statements) }
{
    for place in 0..statements {
        let number = place as u32 + 1;
        push_if(findings, !have[place + 1], Finding::Idle(number))?;
    }
    Ok(())
}

// Adds the alternatives of a statement whose ranks are not marked in its row.
fn push_unreached_of(
    findings: &mut Vec<Finding>,
    ranks: &Rows,
    number: u32,
    ranked: &Ranked,
) -> Result<(), AllocError>
    requires row { number < ranks.now.count }
    requires bits { ranks.now.bits ≡ ALTERNATIVES + 1 }
    requires few { alternative_count (ranking_of ranked.now) ≤ ALTERNATIVES }
    ensures { OnOk result (findings.new.items ≡ findings.old.items ++ told_unreached ranks.now number (alternative_count (ranking_of ranked.now))) }
{
    let count = alternatives(ranked) as u32;
    for place in 0..count {
        let rank = place + 1;
        let is_reached = ranks.get(number, rank);
        push_if(findings, !is_reached, Finding::Unreached(number, rank))?;
    }
    Ok(())
}

// The same of a statement, where it has a case.
fn push_unreached_if(
    findings: &mut Vec<Finding>,
    ranks: &Rows,
    has_case: bool,
    number: u32,
    ranked: &Ranked,
) -> Result<(), AllocError>
    requires row { number < ranks.now.count }
    requires bits { ranks.now.bits ≡ ALTERNATIVES + 1 }
    requires few { IsTrue has_case → alternative_count (ranking_of ranked.now) ≤ ALTERNATIVES }
    ensures { OnOk result (findings.new.items ≡ findings.old.items ++ (if has_case then told_unreached ranks.now number (alternative_count (ranking_of ranked.now)) else [])) }
{
    if has_case {
        push_unreached_of(findings, ranks, number, ranked)?;
    }
    Ok(())
}

/// Adds the alternatives of the statements that a case has whose ranks are not marked.
pub fn push_unreached(
    findings: &mut Vec<Finding>,
    ranks: &Rows,
    have: &[bool],
    statements: &[Statement],
) -> Result<(), AllocError>
    requires many { length statements.now < 4294967295 }
    requires size { length have.now ≡ length statements.now + 1 }
    requires rows { ranks.now.count ≡ length statements.now + 1 }
    requires bits { ranks.now.bits ≡ ALTERNATIVES + 1 }
    requires few { (k : ℕ) (s : PlainStatement) → slice_get (map plain_statement statements.now) k ≡ Some s → marked have.now (k + 1) ≡ true
        → alternative_count s.ranked ≤ ALTERNATIVES }
    ensures { OnOk result (findings.new.items ≡ findings.old.items ++ told_from ranks.now have.now 1 (map plain_statement statements.now)) }
{
    for place in 0..statements.len() {
        let number = place as u32 + 1;
        let ranked = &statements[place].ranked;
        push_unreached_if(findings, ranks, have[place + 1], number, ranked)?;
    }
    Ok(())
}
