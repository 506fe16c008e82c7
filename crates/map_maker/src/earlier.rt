//! Patterns of earlier classes, kept in blocks that are in order of their keys.
ghost use Rattle.std.specs.Prelude.{◌≡◌, ◌≤◌, ◌+◌, ◌-◌, ◌++◌, take, drop, ◌||◌, ◌&&◌, ℕ, IfOk, length, min, count_by, filter};
ghost use Rattle.std.specs.List.{list_any, AllByRecursion};
ghost use Rattle.net_base.specs.Prefixes.{IsPattern};
ghost use Rattle.map_maker.specs.Keys.{in_span, in_some, has, AreApart};
ghost use Rattle.map_maker.specs.Earlier.{IsInOrder, top, is_at, HaveEntries, entries_in, entries_from};

use crate::spans::{Span, key};
use net_base::{List, Pattern};
use std::alloc::{AllocError, Global};

/// A pattern's key, and the place of the pattern among all.
#[derive(Clone, Copy, Debug, PartialEq, Eq)]
pub struct Entry {
    /// The key of the pattern, by which a block is in order.
    pub key: u64,
    /// The place of the pattern among all, from 0.
    pub place: usize,
}

// The entries from one place on and before another.
fn between(block: &[Entry], start: usize, end: usize) -> &[Entry]
    requires order { start ≤ end }
    requires within { end ≤ length block.now }
    ensures { result.now ≡ take (end - start) (drop start block.now) }
{
    &block[start..end]
}

// The entries of a block with keys in the span.
fn run(block: &[Entry], span: Span) -> &[Entry]
    requires { IsInOrder block.now }
    ensures { result.now ≡ filter (λ e. in_span span e.key) block.now }
{
    if span.to <= span.from {
        return &block[..0];
    }
    let start = block.partition_point(|entry| entry.key < span.from);
    let end = block.partition_point(|entry| entry.key < span.to);
    between(block, start, end)
}

// How many entries of a block have keys in one of the spans.
fn count_in(block: &[Entry], spans: &[Span]) -> u64
    requires order { IsInOrder block.now }
    requires apart { AreApart spans.now }
    ensures { result ≡ min (count_by (λ e. in_some spans.now e.key) block.now) top }
{
    let mut total = 0u64;
    for span in spans {
        total = total.saturating_add(run(block, *span).len() as u64);
    }
    total
}

/// How many entries have keys in one of the spans, at most 18446744073709551615.
pub fn count(blocks: &[List<Entry>], spans: &[Span]) -> u64
    requires order { AllByRecursion IsInOrder blocks.now }
    requires apart { AreApart spans.now }
    ensures { result ≡ min (count_by (λ e. in_some spans.now e.key) (entries_in blocks.now)) top }
{
    let mut total = 0u64;
    for block in blocks {
        total = total.saturating_add(count_in(block.as_slice(), spans));
    }
    total
}

// Puts the places of the entries behind the others.
fn push_places(places: &mut Vec<usize>, entries: &[Entry]) -> Result<(), AllocError>
    ensures { IfOk result (λ _. (j : ℕ) → has places.new.items j ≡ (has places.old.items j || list_any (is_at j) entries.now)) }
{
    for entry in entries {
        places.push(entry.place)?;
    }
    Ok(())
}

// Puts the places of a block's entries with keys in one of the spans behind the others.
fn push_found(places: &mut Vec<usize>, block: &[Entry], spans: &[Span]) -> Result<(), AllocError>
    requires { IsInOrder block.now }
    ensures { IfOk result (λ _. (j : ℕ) → has places.new.items j ≡ (has places.old.items j || list_any (λ e. in_some spans.now e.key && is_at j e) block.now)) }
{
    for span in spans {
        push_places(places, run(block, *span))?;
    }
    Ok(())
}

/// The places of the entries with keys in one of the spans.
pub fn found(
    alloc: Global,
    blocks: &[List<Entry>],
    spans: &[Span],
) -> Result<Vec<usize>, AllocError>
    requires { AllByRecursion IsInOrder blocks.now }
    ensures { IfOk result (λ v. (j : ℕ) → has v.items j ≡ list_any (λ e. in_some spans.now e.key && is_at j e) (entries_in blocks.now)) }
{
    let mut places = Vec::new(alloc);
    for block in blocks {
        push_found(&mut places, block.as_slice(), spans)?;
    }
    Ok(places)
}

/// The entries of patterns, of which the first has this place.
pub fn entries_of(
    alloc: Global,
    first: usize,
    patterns: &[Pattern],
) -> Result<Vec<Entry>, AllocError>
    requires { first + length patterns.now ≤ 18446744073709551615 }
    ensures entries { IfOk result (λ v. v.items ≡ entries_from first patterns.now) }
    ensures rules { IfOk result (λ _. AllByRecursion IsPattern patterns.now) }
{
    let mut entries = Vec::new(alloc);
    let mut place = first;
    for pattern in patterns {
        entries.push(Entry {
            key: key(*pattern),
            place,
        })?;
        place += 1;
    }
    Ok(entries)
}

// Puts entries into a block, in order.
fn block_of(mut entries: Vec<Entry>) -> List<Entry>
    ensures order { IsInOrder result }
    ensures entries { HaveEntries result entries.items }
{
    entries.sort_unstable_by_key(|entry| entry.key);
    List::from_vec(entries)
}

// Takes the last blocks off that aren't longer than the entries, and puts their entries behind these.
fn take_short(blocks: &mut Vec<List<Entry>>, entries: &mut Vec<Entry>) -> Result<(), AllocError>
    requires { AllByRecursion IsInOrder blocks.old.items }
    ensures order { IfOk result (λ _. AllByRecursion IsInOrder blocks.new.items) }
    ensures entries { IfOk result (λ _. HaveEntries (entries_in blocks.new.items ++ entries.new.items) (entries_in blocks.old.items ++ entries.old.items)) }
{
    while let Some(block) = blocks.pop() {
        if block.as_slice().len() > entries.len() {
            blocks.push(block)?;
            return Ok(());
        }
        entries.extend_from_slice(block.as_slice())?;
    }
    Ok(())
}

/// The blocks with these entries more. Each block is longer than those behind it together, so there are few.
pub fn with_entries(
    blocks: List<List<Entry>>,
    entries: Vec<Entry>,
) -> Result<List<List<Entry>>, AllocError>
    requires { AllByRecursion IsInOrder blocks }
    ensures order { IfOk result (λ b. AllByRecursion IsInOrder b) }
    ensures entries { IfOk result (λ b. HaveEntries (entries_in b) (entries_in blocks ++ entries.items)) }
{
    let mut all = blocks.into_vec();
    let mut last = entries;
    take_short(&mut all, &mut last)?;
    all.push(block_of(last))?;
    Ok(List::from_vec(all))
}
