//! What is said of a verdict on evidence.
ghost use Rattle.std.specs.Prelude.{◌≡◌, ◌++◌, OnOk, IfOk};
ghost use Rattle.judging_jobs.specs.VerdictLines.{value_text, holds_line as line_of_holding, fails_line as line_of_fault};

use evidence_verdicts::{CheckRule, Shown};
use input_output::NoMemory;
use std::alloc::Global;
use text_parts::{push_bytes, push_number};

// Adds a number after its word.
fn push_value(line: &mut Vec<u8>, word: &[u8], number: u64) -> Result<(), NoMemory>
    ensures { OnOk result (line.new.items ≡ line.old.items ++ value_text word.now number) }
{
    push_bytes(line, b" ")?;
    push_bytes(line, word)?;
    push_bytes(line, b" ")?;
    push_number(line, number)
}

/// The line that tells that evidence holds.
pub fn holds_line(alloc: Global) -> Result<Vec<u8>, NoMemory>
    ensures { IfOk result (λ v. v.items ≡ line_of_holding) }
{
    let mut line = Vec::new(alloc);
    push_bytes(&mut line, b"holds\n")?;
    Ok(line)
}

/// The line that tells the first rule that fails: its number, its word and where it fails.
#[tactic(auto, unfolding(crate::specs::VerdictLines::fails_line))]
pub fn fails_line(alloc: Global, rule: CheckRule, shown: Shown) -> Result<Vec<u8>, NoMemory>
    ensures { IfOk result (λ v. v.items ≡ line_of_fault rule shown) }
{
    let mut line = Vec::new(alloc);
    push_bytes(&mut line, b"fails ")?;
    push_number(&mut line, u64::from(rule.number()))?;
    push_bytes(&mut line, b" ")?;
    push_bytes(&mut line, rule.word().as_bytes())?;
    push_value(&mut line, b"case", u64::from(shown.case))?;
    push_value(&mut line, b"first", u64::from(shown.first))?;
    push_value(&mut line, b"second", u64::from(shown.second))?;
    push_value(&mut line, b"line", shown.line)?;
    push_bytes(&mut line, b"\n")?;
    Ok(line)
}
