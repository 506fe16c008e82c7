//! Patterns by the first bits of the prefixes that they contain.
ghost use Rattle.std.specs.Prelude.{◌≡◌, ◌≤◌, ◌+◌, IfOk, OnOk, Some, None, IsTrue, false, slice_get, if◌then◌else◌};
ghost use Rattle.std.specs.Option.{option_or};
ghost use Rattle.indexmap.specs.IndexMap.{get};
ghost use Rattle.first_patterns.specs.declared.table.Head.{Head as PlainHead};
ghost use Rattle.first_patterns.specs.Firsts.{first_place};
ghost use Rattle.first_patterns.specs.Tables.{AreLengths, has_head, head_of, least_place, lesser as lesser_of, same_head};

use crate::firsts::Stated;
use indexmap::IndexMap;
use input_output::NoMemory;
use net_base::{Pattern, Prefix};
use std::alloc::{AllocError, Global};

/// The first `len` bits of prefixes that are `of` bits long.
#[derive(Clone, Copy, PartialEq, Eq, Hash, Drop)]
pub(crate) struct Head {
    bits: u64,
    len: u8,
    of: u8,
}

// The first bits of a prefix.
fn first_bits(prefix: Prefix, len: u8) -> Head
    requires { len ≤ prefix.len }
    ensures { result ≡ head_of prefix len }
{
    Head {
        bits: u64::from(prefix.bits()) >> (32 - len),
        len,
        of: prefix.len(),
    }
}

// Notes a place for first bits that have none yet.
fn note(places: &mut IndexMap<Head, usize>, head: Head, place: usize) -> Result<(), NoMemory>
    ensures { OnOk result ((h : PlainHead) → get same_head places.new h ≡ option_or (get same_head places.old h) (if same_head head h then Some place else None)) }
{
    if !places.contains_key(&head) {
        places.insert(head, place)?;
    }
    Ok(())
}

// Notes a place for each first bits of prefixes that a pattern contains.
fn note_pattern(
    places: &mut IndexMap<Head, usize>,
    pattern: Pattern,
    place: usize,
) -> Result<(), NoMemory>
    ensures { OnOk result ((h : PlainHead) → get same_head places.new h ≡ option_or (get same_head places.old h) (if has_head h pattern then Some place else None)) }
{
    let base = pattern.base();
    for of in base.len()..pattern.upto() + 1 {
        let head = Head {
            of,
            ..first_bits(base, base.len())
        };
        note(places, head, place)?;
    }
    Ok(())
}

/// The place, from 1, of the first pattern for each first bits of prefixes that a pattern contains.
pub(crate) fn places_of(
    alloc: Global,
    patterns: &[Stated],
) -> Result<IndexMap<Head, usize>, NoMemory>
    ensures { IfOk result (λ places. (h : PlainHead) → get same_head places h ≡ first_place (has_head h) patterns.now 1) }
{
    let mut places = IndexMap::new(alloc);
    for i in 0..patterns.len() {
        note_pattern(&mut places, patterns[i].pattern, i + 1)?;
    }
    Ok(places)
}

// The lesser of two places either of which may be missing.
fn lesser(a: Option<usize>, b: Option<usize>) -> Option<usize>
    ensures { result ≡ lesser_of a b }
{
    match (a, b) {
        (Some(a), Some(b)) => Some(if a <= b { a } else { b }),
        (Some(a), None) => Some(a),
        (None, b) => b,
    }
}

/// For each length from 0 to 32 whether the prefix of some pattern has it.
pub(crate) fn lengths_of(alloc: Global, patterns: &[Stated]) -> Result<Vec<bool>, AllocError>
    ensures { IfOk result (λ lengths. AreLengths patterns.now lengths.items) }
{
    let mut lengths = Vec::with_capacity(alloc, 33)?;
    for _ in 0..33usize {
        lengths.push(false)?;
    }
    for i in 0..patterns.len() {
        lengths[patterns[i].pattern.base().len() as usize] = true;
    }
    Ok(lengths)
}

// Whether no pattern's prefix has this length.
fn is_unmarked(lengths: &[bool], len: u8) -> bool
    ensures { IsTrue result → slice_get lengths.now len ≡ Some false }
{
    lengths.get(len as usize) == Some(&false)
}

/// The least place under the first bits of a prefix. Bits of a length that no pattern has aren't looked up.
pub(crate) fn least_under(
    places: &IndexMap<Head, usize>,
    lengths: &[bool],
    prefix: Prefix,
) -> Option<usize>
    ensures { ((h : PlainHead) → slice_get lengths.now h.len ≡ Some false → get same_head places.now h ≡ None)
        → result ≡ least_place (get same_head places.now) prefix (prefix.len + 1) }
{
    let mut first = None;
    for len in 0..prefix.len() + 1 {
        if !is_unmarked(lengths, len) {
            first = lesser(first, places.get(&first_bits(prefix, len)).copied());
        }
    }
    first
}
