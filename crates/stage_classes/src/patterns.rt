//! The patterns that two classes share.
ghost use Rattle.std.specs.Prelude.{◌≡◌, ◌++◌, IfOk, IsTrue};
ghost use Rattle.std.specs.List.{list_any, flat_map};
ghost use Rattle.net_base.specs.Prefixes.{contains};
ghost use Rattle.stage_classes.specs.Cells.{common as shared_by_classes, covers as covered_by, everything as of_all, is_covered as covered, narrowed as narrow, shared as shared_by, uncovered};

use net_base::{List, Pattern, Prefix};
use std::alloc::{AllocError, Global};

/// The pattern of every prefix.
pub fn everything() -> Pattern
    ensures { result ≡ of_all }
{
    Pattern::new(Prefix::new(0, 0), 32)
}

// A pattern, up to the length of another one too.
#[tactic(auto, using(crate::proofs::Shared::base_fits))]
fn narrowed(pattern: Pattern, other: Pattern) -> Pattern
    requires { IsTrue (contains other pattern.base) }
    ensures { result ≡ narrow pattern other }
{
    Pattern::new(pattern.base(), pattern.upto().min(other.upto()))
}

// The pattern of the prefixes that two patterns share.
fn shared(a: Pattern, b: Pattern) -> Option<Pattern>
    ensures { result ≡ shared_by a b }
{
    if a.contains(b.base()) {
        Some(narrowed(b, a))
    } else if b.contains(a.base()) {
        Some(narrowed(a, b))
    } else {
        None
    }
}

// Whether each prefix of the second pattern is one of the first.
fn covers(a: Pattern, b: Pattern) -> bool
    ensures { result ≡ covered_by a b }
{
    a.contains(b.base()) && b.upto() <= a.upto()
}

// Whether one of the patterns covers the pattern.
fn is_covered_in(patterns: &[Pattern], pattern: Pattern) -> bool
    ensures { result ≡ list_any (λ a. covered_by a pattern) patterns.now }
{
    patterns.iter().any(|a| covers(*a, pattern))
}

// Whether one pattern of the classes covers the pattern.
fn is_covered(classes: &[List<Pattern>], pattern: Pattern) -> bool
    ensures { result ≡ covered classes.now pattern }
{
    classes
        .iter()
        .any(|patterns| is_covered_in(patterns.as_slice(), pattern))
}

// Puts a pattern behind the others, if there is one and no class before covers it.
fn push_uncovered(
    patterns: &mut List<Pattern>,
    before: &[List<Pattern>],
    seen: &[List<Pattern>],
    pattern: Option<Pattern>,
) -> Result<(), AllocError>
    ensures { IfOk result (λ _. patterns.new ≡ patterns.old ++ uncovered before.now seen.now pattern) }
{
    let Some(pattern) = pattern else {
        return Ok(());
    };
    if is_covered(before, pattern) || is_covered(seen, pattern) {
        return Ok(());
    }
    patterns.push(pattern)
}

// Puts what a pattern shares with the patterns of a class behind the others.
fn push_shared(
    patterns: &mut List<Pattern>,
    before: &[List<Pattern>],
    seen: &[List<Pattern>],
    pattern: Pattern,
    class: &[Pattern],
) -> Result<(), AllocError>
    ensures { IfOk result (λ _. patterns.new ≡ patterns.old ++ flat_map (λ b. uncovered before.now seen.now (shared_by pattern b)) class.now) }
{
    for other in class {
        push_uncovered(patterns, before, seen, shared(pattern, *other))?;
    }
    Ok(())
}

/// The patterns that two classes share, but for those that a class before the first one or one before the second one covers.
pub fn common(
    alloc: Global,
    before: &[List<Pattern>],
    seen: &[List<Pattern>],
    first: &[Pattern],
    second: &[Pattern],
) -> Result<List<Pattern>, AllocError>
    ensures { IfOk result (λ l. l ≡ shared_by_classes before.now seen.now first.now second.now) }
{
    let mut patterns = List::new(alloc);
    for pattern in first {
        push_shared(&mut patterns, before, seen, *pattern, second)?;
    }
    Ok(patterns)
}
