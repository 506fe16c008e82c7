//! The keys of patterns, and the spans of keys in which those that overlap a pattern stand.
ghost use Rattle.std.specs.Prelude.{◌≡◌, ◌<◌, ◌≤◌, ◌||◌, ◌==◌, ◌-◌, ◌^◌, ℕ, IfOk, List, true};
ghost use Rattle.std.specs.List.{list_any, AllByRecursion};
ghost use Rattle.std.specs.List.Sorted.{IsNonDecreasingBy};
ghost use Rattle.net_base.specs.Prefixes.{PlainPattern, IsPattern};
ghost use Rattle.route_maps.specs.OfConfig.{meets_some};
ghost use Rattle.route_maps.specs.Overlaps.{overlap};
ghost use Rattle.map_maker.specs.Keys.{key as key_of, above as above_by, inside as inside_by, span_at, in_span, in_some, has, AreApart, AreJoined};

use net_base::{List, Pattern};
use std::alloc::{AllocError, Global};

// As many as there are addresses.
const ADDRESSES: u64 = 4_294_967_296;

// More than there are lengths of prefixes.
const LENGTHS: u64 = 64;

/// The keys from one on and before another.
#[derive(Clone, Copy, Debug, PartialEq, Eq)]
pub struct Span {
    /// The least key of the span.
    pub from: u64,
    /// The key behind the span.
    pub to: u64,
}

/// The key of a pattern, by which patterns stand in order of their length, then of their bits, and then of the
/// greatest length that they contain.
pub fn key(pattern: Pattern) -> u64
    ensures key { result ≡ key_of pattern }
    ensures rules { IsPattern pattern }
{
    let base = pattern.base();
    let upto = pattern.upto();
    (u64::from(base.len()) * ADDRESSES + u64::from(base.bits())) * LENGTHS + u64::from(upto)
}

// The keys of the patterns of a length, at most the pattern's own, that contain its base.
fn above(pattern: Pattern, len: u8) -> Span
    requires { len ≤ pattern.base.len }
    ensures { result ≡ above_by pattern len }
{
    let base = pattern.base();
    let cut = 32 - len;
    let bits = (u64::from(base.bits()) >> cut) << cut;
    let first = (u64::from(len) * ADDRESSES + bits) * LENGTHS;
    Span {
        from: first + u64::from(base.len()),
        to: first + LENGTHS,
    }
}

// How many addresses a prefix of this length has.
fn addresses(len: u8) -> u64
    requires { len ≤ 32 }
    ensures size { result ≡ 2 ^ (32 - len) }
    ensures few { result ≤ 4294967296 }
{
    1u64 << (32 - len)
}

// The keys of the patterns of a length, greater than the pattern's own, whose bases it contains where they aren't too long.
fn inside(pattern: Pattern, len: u8) -> Span
    requires longer { pattern.base.len < len }
    requires within { len ≤ 32 }
    ensures { result ≡ inside_by pattern len }
{
    let base = pattern.base();
    let first = u64::from(len) * ADDRESSES + u64::from(base.bits());
    let size = addresses(base.len());
    Span {
        from: first * LENGTHS,
        to: (first + size) * LENGTHS,
    }
}

// The keys of the patterns of a length that overlap the pattern.
fn span_of(pattern: Pattern, len: u8) -> Span
    requires { len ≤ 32 }
    ensures span { result ≡ span_at pattern len }
    ensures rules { IsPattern pattern }
{
    let upto = pattern.upto();
    if len <= pattern.base().len() {
        above(pattern, len)
    } else if len <= upto {
        inside(pattern, len)
    } else {
        Span { from: 0, to: 0 }
    }
}

// Puts a span behind the others, unless it is empty.
fn push_span(spans: &mut Vec<Span>, span: Span) -> Result<(), AllocError>
    ensures { IfOk result (λ _. (k : ℕ) → in_some spans.new.items k ≡ (in_some spans.old.items k || in_span span k)) }
{
    if span.from < span.to {
        spans.push(span)?;
    }
    Ok(())
}

// Puts the spans of a pattern behind the others, one for each of these lengths.
fn push_spans(spans: &mut Vec<Span>, pattern: Pattern, lengths: &[u8]) -> Result<(), AllocError>
    requires { AllByRecursion (λ l. l ≤ 32) lengths.now }
    ensures { IfOk result (λ _. (q : PlainPattern) → IsPattern q → has lengths.now q.base.len ≡ true → in_some spans.new.items (key_of q) ≡ (in_some spans.old.items (key_of q) || overlap q pattern)) }
{
    for len in lengths {
        push_span(spans, span_of(pattern, *len))?;
    }
    Ok(())
}

// The spans in which the patterns of these lengths stand that overlap some pattern of the class.
fn spans_of(alloc: Global, class: &[Pattern], lengths: &[u8]) -> Result<Vec<Span>, AllocError>
    requires { AllByRecursion (λ l. l ≤ 32) lengths.now }
    ensures { IfOk result (λ v. (q : PlainPattern) → IsPattern q → has lengths.now q.base.len ≡ true → in_some v.items (key_of q) ≡ meets_some class.now q) }
{
    let mut spans = Vec::new(alloc);
    for pattern in class {
        push_spans(&mut spans, *pattern, lengths)?;
    }
    Ok(spans)
}

// Puts what is new of a span behind the others, which end before the key that was reached; gives the key that is
// reached with it.
fn join(apart: &mut Vec<Span>, reached: u64, span: Span) -> Result<u64, AllocError>
    requires { AreJoined apart.old.items reached span.from }
    ensures joined { IfOk result (λ r. AreJoined apart.new.items r span.from) }
    ensures added { IfOk result (λ _. (k : ℕ) → in_some apart.new.items k ≡ (in_some apart.old.items k || in_span span k)) }
{
    let from = span.from.max(reached);
    if from >= span.to {
        return Ok(reached);
    }
    apart.push(Span { from, to: span.to })?;
    Ok(span.to)
}

// The same keys in spans of which no two share one, where the spans are in order of their first keys.
fn joined(alloc: Global, spans: &[Span]) -> Result<Vec<Span>, AllocError>
    requires { IsNonDecreasingBy (λ s. s.from) spans.now }
    ensures same { IfOk result (λ v. (k : ℕ) → in_some v.items k ≡ in_some spans.now k) }
    ensures apart { IfOk result (λ v. AreApart v.items) }
{
    let mut apart = Vec::new(alloc);
    let mut reached = 0;
    for span in spans {
        reached = join(&mut apart, reached, *span)?;
    }
    Ok(apart)
}

/// Spans of which no two share a key, in which those patterns of these lengths stand that overlap some pattern of the
/// class.
pub fn spans_apart(
    alloc: Global,
    class: &[Pattern],
    lengths: &[u8],
) -> Result<Vec<Span>, AllocError>
    requires { AllByRecursion (λ l. l ≤ 32) lengths.now }
    ensures meets { IfOk result (λ v. (q : PlainPattern) → IsPattern q → has lengths.now q.base.len ≡ true → in_some v.items (key_of q) ≡ meets_some class.now q) }
    ensures apart { IfOk result (λ v. AreApart v.items) }
{
    let mut spans = spans_of(alloc, class, lengths)?;
    spans.sort_unstable_by_key(|span| span.from);
    joined(alloc, &spans)
}

// Whether some pattern of the class has a base of this length.
fn is_in_class(class: &[Pattern], len: u8) -> bool
    ensures { result ≡ list_any (λ p. p.base.len == len) class.now }
{
    class.iter().any(|p| p.base().len() == len)
}

// Whether some pattern has a base of this length.
fn has_length(classes: &[List<Pattern>], len: u8) -> bool
    ensures { result ≡ list_any (λ c. list_any (λ p. p.base.len == len) c) classes.now }
{
    classes
        .iter()
        .any(|class| is_in_class(class.as_slice(), len))
}

/// The lengths of the bases of all patterns.
pub fn lengths_of(alloc: Global, classes: &[List<Pattern>]) -> Result<Vec<u8>, AllocError>
    ensures within { IfOk result (λ v. AllByRecursion (λ l. l ≤ 32) v.items) }
    ensures all { IfOk result (λ v. (l : ℕ) → l ≤ 32 → has v.items l ≡ list_any (λ c. list_any (λ p. p.base.len == l) c) classes.now) }
{
    let mut lengths = Vec::new(alloc);
    for len in 0..33u8 {
        if has_length(classes, len) {
            lengths.push(len)?;
        }
    }
    Ok(lengths)
}
