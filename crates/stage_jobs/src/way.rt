//! The line of what is in the way of stages.
ghost use Rattle.std.specs.Prelude.{◌≡◌, IfOk};
ghost use Rattle.stage_jobs.specs.Betweens.{numbered, shared_line, too_many_lines, way_line as line_of_way};

use input_output::NoMemory;
use net_base::Tag;
use stage_check::Verdict;
use std::alloc::Global;
use text_parts::{push_bytes, push_number};

// A line of words and a number.
fn number_line(alloc: Global, words: &[u8], number: u64) -> Result<Vec<u8>, NoMemory>
    ensures { IfOk result (λ v. v.items ≡ numbered words.now number) }
{
    let mut line = Vec::new(alloc);
    push_bytes(&mut line, words)?;
    push_number(&mut line, number)?;
    push_bytes(&mut line, b"\n")?;
    Ok(line)
}

// The line of a tag that stands in both.
fn tag_line(alloc: Global, tag: Tag) -> Result<Vec<u8>, NoMemory>
    ensures { IfOk result (λ v. v.items ≡ shared_line tag) }
{
    let mut line = Vec::new(alloc);
    push_bytes(&mut line, b"shared tag ")?;
    push_number(&mut line, u64::from(tag.asn))?;
    push_bytes(&mut line, b":0:")?;
    push_number(&mut line, u64::from(tag.value))?;
    push_bytes(&mut line, b"\n")?;
    Ok(line)
}

/// The line of the refusal that a stage would have so many lines.
pub fn refusal_line(alloc: Global, number: u64) -> Result<Vec<u8>, NoMemory>
    ensures { IfOk result (λ v. v.items ≡ too_many_lines number) }
{
    number_line(alloc, b"propane: refused 8 too-many-lines number ", number)
}

/// The line of what is in the way, empty where nothing is.
pub fn way_line(alloc: Global, verdict: Verdict) -> Result<Vec<u8>, NoMemory>
    ensures { IfOk result (λ v. v.items ≡ line_of_way verdict) }
{
    match verdict {
        Verdict::MayMix => Ok(Vec::new(alloc)),
        Verdict::Unlike(number) => number_line(alloc, b"unlike router ", number as u64),
        Verdict::TooManyLines(number) => refusal_line(alloc, number),
        Verdict::SharedTag(tag) => tag_line(alloc, tag),
        Verdict::LowPref(pref) => number_line(alloc, b"low pref ", u64::from(pref)),
    }
}
