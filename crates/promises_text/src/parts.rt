//! The lines of what peers are believed in inside the network's own space. Each `push_` function adds a text to the end of another.
ghost use Rattle.std.specs.Fmt.{decimal};
ghost use Rattle.std.specs.Prelude.{◌≡◌, ◌++◌, codes, drop, IfOk, OnOk};
ghost use Rattle.std.specs.List.{flat_map};
ghost use Rattle.net_base.specs.Prefixes.{same_prefix};
ghost use Rattle.promises_text.specs.Texts.{comma_part, open_line, own_part, within_text};

use crate::line::push_line;
use input_output::NoMemory;
use net_base::{Pattern, Prefix};
use own_space::{OpenCase, OpenPart};
use std::alloc::Global;
use text_parts::{push_bytes, push_number, push_pattern, push_prefix};

// Whether a pattern is all of an originated prefix, up to a length.
fn is_whole(pattern: Pattern, within: Prefix) -> bool
    ensures { result ≡ same_prefix pattern.base within }
{
    let base = pattern.base();
    base.bits() == within.bits() && base.len() == within.len()
}

// Adds the originated prefix that a pattern is inside of, where it isn't all of that.
#[tactic(auto, unfolding(crate::specs::Texts::within_text))]
fn push_within(text: &mut Vec<u8>, pattern: Pattern, within: Prefix) -> Result<(), NoMemory>
    ensures { OnOk result (text.new.items ≡ text.old.items ++ within_text pattern within) }
{
    if is_whole(pattern, within) {
        return Ok(());
    }
    push_bytes(text, b" in ")?;
    push_prefix(text, within)
}

// Adds a part behind a comma.
#[tactic(auto, unfolding(crate::specs::Texts::comma_part))]
fn push_part(text: &mut Vec<u8>, part: OpenPart) -> Result<(), NoMemory>
    ensures { OnOk result (text.new.items ≡ text.old.items ++ comma_part part) }
{
    let pattern = part.pattern;
    push_bytes(text, b", ")?;
    push_pattern(text, pattern)?;
    push_within(text, pattern, part.within)
}

// Adds a part behind a comma, where it is of the case with a number.
#[tactic(auto, unfolding(crate::specs::Texts::own_part))]
fn push_own_part(text: &mut Vec<u8>, number: usize, part: OpenPart) -> Result<(), NoMemory>
    ensures { OnOk result (text.new.items ≡ text.old.items ++ own_part number part) }
{
    if part.number != number {
        return Ok(());
    }
    push_part(text, part)
}

// Adds the parts of the case with a number, each behind a comma.
fn push_parts(text: &mut Vec<u8>, number: usize, parts: &[OpenPart]) -> Result<(), NoMemory>
    ensures { OnOk result (text.new.items ≡ text.old.items ++ flat_map (own_part number) parts.now) }
{
    for part in parts {
        push_own_part(text, number, *part)?;
    }
    Ok(())
}

// The end of the line of a case.
fn tail_of(alloc: Global, number: usize) -> Result<Vec<u8>, NoMemory>
    ensures { IfOk result (λ tail. tail.items ≡ codes " case " ++ decimal number ++ codes "\n") }
{
    let mut tail = Vec::new(alloc);
    push_bytes(&mut tail, b" case ")?;
    push_number(&mut tail, number as u64)?;
    push_bytes(&mut tail, b"\n")?;
    Ok(tail)
}

// What stands behind commas, without the first one.
fn without_comma(joined: &[u8]) -> &[u8]
    ensures { result.now ≡ drop 1 joined.now }
{
    match joined {
        [] => joined,
        [_, rest @ ..] => rest,
    }
}

// Adds the line of a case, where it has parts.
#[tactic(auto, unfolding(crate::specs::Texts::open_line))]
fn push_open(
    alloc: Global,
    text: &mut Vec<u8>,
    case: OpenCase,
    parts: &[OpenPart],
) -> Result<(), NoMemory>
    ensures { OnOk result (text.new.items ≡ text.old.items ++ open_line parts.now case) }
{
    let mut own = Vec::new(alloc);
    push_parts(&mut own, case.number, parts)?;
    let tail = tail_of(alloc, case.number)?;
    push_line(text, b"open", without_comma(&own), &tail)
}

/// Adds the lines of these cases, of which these are the parts.
pub fn push_all_open(
    alloc: Global,
    text: &mut Vec<u8>,
    cases: &[OpenCase],
    parts: &[OpenPart],
) -> Result<(), NoMemory>
    ensures { OnOk result (text.new.items ≡ text.old.items ++ flat_map (open_line parts.now) cases.now) }
{
    for case in cases {
        push_open(alloc, text, *case, parts)?;
    }
    Ok(())
}
