//! The summary.
ghost use Rattle.std.specs.Prelude.{◌≡◌, ◌++◌, IfOk, OnOk};
ghost use Rattle.evidence_summary.specs.Summary.{count_line, node_count, step_count, summary_text};

use crate::numbers::preferences;
use evidence_base::CaseEvidence;
use input_output::NoMemory;
use net_base::Net;
use std::alloc::Global;
use text_parts::push_bytes;

// Adds a line with a word and a number.
fn push_count(text: &mut Vec<u8>, word: &[u8], count: u128) -> Result<(), NoMemory>
    ensures { OnOk result (text.new.items ≡ text.old.items ++ count_line word.now count) }
{
    let mut buffer = itoa::Buffer::new();
    push_bytes(text, word)?;
    push_bytes(text, b" ")?;
    push_bytes(text, buffer.format(count).as_bytes())?;
    push_bytes(text, b"\n")
}

// How many nodes the cases have. Lengths of lists in memory, added up over such a list, fit 128 bits.
fn nodes(cases: &[CaseEvidence]) -> u128
    ensures { result ≡ node_count cases.now }
{
    let mut count = 0;
    for case in cases {
        count += case.graph().nodes().len() as u128;
    }
    count
}

// How many steps the cases have.
fn steps(cases: &[CaseEvidence]) -> u128
    ensures { result ≡ step_count cases.now }
{
    let mut count = 0;
    for case in cases {
        count += case.graph().steps().len() as u128;
    }
    count
}

/// The summary of a network, of so many leaves where it is a sample, and of the evidence that is compiled for it.
#[tactic(auto, unfolding(crate::specs::Summary::summary_text))]
pub fn summary(
    alloc: Global,
    leaves: u16,
    net: &Net,
    cases: &[CaseEvidence],
) -> Result<Vec<u8>, NoMemory>
    ensures { IfOk result (λ v. v.items ≡ summary_text leaves net.now cases.now) }
{
    let preferences = preferences(alloc, net, cases)?;
    let mut text = Vec::new(alloc);
    push_count(&mut text, b"sample", u128::from(leaves))?;
    push_count(&mut text, b"routers", net.routers().len() as u128)?;
    push_count(&mut text, b"peers", net.peers().len() as u128)?;
    push_count(&mut text, b"links", net.links().len() as u128)?;
    push_count(&mut text, b"cases", cases.len() as u128)?;
    push_count(&mut text, b"nodes", nodes(cases))?;
    push_count(&mut text, b"steps", steps(cases))?;
    push_count(&mut text, b"preferences", u128::from(preferences))?;
    push_bytes(&mut text, b"holds\n")?;
    Ok(text)
}
