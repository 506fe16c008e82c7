//! The lines of findings.
ghost use Rattle.std.specs.Prelude.{◌≡◌, ◌++◌, OnOk, IfOk};
ghost use Rattle.std.specs.Fmt.{decimal};
ghost use Rattle.judging_jobs.specs.Lines.{finding_line, finding_text, lint_text as text_of};

use input_output::NoMemory;
use policy_lint::Finding;
use std::alloc::Global;
use text_parts::{push_bytes, push_name, push_number};

// Adds a number behind some words.
fn push_counted(text: &mut Vec<u8>, words: &[u8], number: u32) -> Result<(), NoMemory>
    ensures { OnOk result (text.new.items ≡ text.old.items ++ (words.now ++ decimal number)) }
{
    push_bytes(text, words)?;
    push_number(text, u64::from(number))
}

// Adds what a finding says.
fn push_text(text: &mut Vec<u8>, finding: &Finding) -> Result<(), NoMemory>
    ensures { OnOk result (text.new.items ≡ text.old.items ++ finding_text finding.now) }
{
    match finding {
        Finding::UnusedGroup(name) => {
            push_bytes(text, b"unused group ")?;
            push_name(text, name)
        }
        Finding::Covered(statement) => push_counted(text, b"covered statement ", *statement),
        Finding::Idle(statement) => push_counted(text, b"idle statement ", *statement),
        Finding::Unreached(statement, alternative) => {
            push_counted(text, b"unreached statement ", *statement)?;
            push_counted(text, b" alternative ", *alternative)
        }
    }
}

// Adds the line of a finding.
fn push_finding(text: &mut Vec<u8>, finding: &Finding) -> Result<(), NoMemory>
    ensures { OnOk result (text.new.items ≡ text.old.items ++ finding_line finding.now) }
{
    push_text(text, finding)?;
    push_bytes(text, b"\n")
}

/// A line for each finding, and one that tells how many there are.
pub fn lint_text(alloc: Global, findings: &[Finding]) -> Result<Vec<u8>, NoMemory>
    ensures { IfOk result (λ v. v.items ≡ text_of findings.now) }
{
    let mut text = Vec::new(alloc);
    for finding in findings {
        push_finding(&mut text, finding)?;
    }
    push_bytes(&mut text, b"findings ")?;
    push_number(&mut text, findings.len() as u64)?;
    push_bytes(&mut text, b"\n")?;
    Ok(text)
}
