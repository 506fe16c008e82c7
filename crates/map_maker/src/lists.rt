//! The lists of a configuration's classes.
ghost use Rattle.std.specs.Prelude.{◌≡◌, ◌≤◌, ◌+◌, [], ◌∷◌, ◌++◌, true, IfOk, List, length, map, min, sum_by, filter};
ghost use Rattle.std.specs.List.{AllByRecursion};
ghost use Rattle.net_base.specs.Prefixes.{PlainPattern, IsPattern};
ghost use Rattle.route_maps.specs.OfConfig.{line, list_for, lists_from, meets_some};
ghost use Rattle.map_maker.specs.Keys.{key as key_of, in_some, AreApart};
ghost use Rattle.map_maker.specs.Earlier.{top};
ghost use Rattle.map_maker.specs.Lists.{IsIndexed};
ghost use Rattle.map_maker.specs.declared.lists.TheConstants.{MAX_LINES};

use crate::earlier::{Entry, count, entries_of, found, with_entries};
use crate::places::{push_denied, settle};
use crate::spans::{Span, lengths_of, spans_apart};
use net_base::{List, Pattern};
use route_maps::ListLine;
use std::alloc::{AllocError, Global};

/// As many lines as the text of maps has at most.
pub const MAX_LINES: u64 = 1_000_000;

/// The patterns of earlier classes, in their order and in blocks by their keys.
#[derive(Drop)]
pub struct Earlier {
    /// The patterns, in order of their classes.
    pub patterns: List<Pattern>,
    /// The same patterns in blocks, each in order of its keys.
    pub blocks: List<List<Entry>>,
}

/// No pattern.
pub fn no_pattern(alloc: Global) -> Earlier
    ensures index { IsIndexed result }
    ensures none { result.patterns ≡ [] }
{
    Earlier {
        patterns: List::new(alloc),
        blocks: List::new(alloc),
    }
}

/// How many earlier patterns overlap some pattern of the class, at most 18446744073709551615.
pub fn count_denied(earlier: &Earlier, spans: &[Span]) -> u64
    requires index { IsIndexed earlier.now }
    requires apart { AreApart spans.now }
    ensures { (class : List PlainPattern) → AllByRecursion (λ q. in_some spans.now (key_of q) ≡ meets_some class q) earlier.now.patterns
        → result ≡ min (length (filter (meets_some class) earlier.now.patterns)) top }
{
    count(earlier.blocks.as_slice(), spans)
}

// Puts a `permit` line behind the others for each pattern of the class.
fn push_permitted(lines: &mut List<ListLine>, class: &[Pattern]) -> Result<(), AllocError>
    ensures { IfOk result (λ _. lines.new ≡ lines.old ++ map (line true) class.now) }
{
    for pattern in class {
        lines.push(ListLine {
            permit: true,
            pattern: *pattern,
        })?;
    }
    Ok(())
}

/// The list of a class.
pub fn list_of(
    alloc: Global,
    earlier: &Earlier,
    class: &[Pattern],
    spans: &[Span],
) -> Result<List<ListLine>, AllocError>
    requires index { IsIndexed earlier.now }
    requires meets { AllByRecursion (λ q. in_some spans.now (key_of q) ≡ meets_some class.now q) earlier.now.patterns }
    ensures { IfOk result (λ l. l ≡ list_for earlier.now.patterns class.now) }
{
    let mut places = found(alloc, earlier.blocks.as_slice(), spans)?;
    settle(&mut places);
    let mut lines = List::new(alloc);
    push_denied(&mut lines, earlier.patterns.as_slice(), &places)?;
    push_permitted(&mut lines, class)?;
    Ok(lines)
}

// Puts the patterns of a class behind the others.
fn push_class(patterns: &mut List<Pattern>, class: &[Pattern]) -> Result<(), AllocError>
    ensures { IfOk result (λ _. patterns.new ≡ patterns.old ++ class.now) }
{
    for pattern in class {
        patterns.push(*pattern)?;
    }
    Ok(())
}

/// The earlier patterns with those of one class more.
pub fn with_class(alloc: Global, earlier: Earlier, class: &[Pattern]) -> Result<Earlier, AllocError>
    requires { IsIndexed earlier }
    ensures index { IfOk result (λ e. IsIndexed e) }
    ensures patterns { IfOk result (λ e. e.patterns ≡ earlier.patterns ++ class.now) }
    ensures rules { IfOk result (λ _. AllByRecursion IsPattern class.now) }
{
    let Earlier {
        mut patterns,
        blocks,
    } = earlier;
    push_class(&mut patterns, class)?;
    let first = patterns.as_slice().len() - class.len();
    let entries = entries_of(alloc, first, class)?;
    let blocks = with_entries(blocks, entries)?;
    Ok(Earlier { patterns, blocks })
}

// Puts the list of a class behind the others, unless there are too many lines.
fn push_list(
    alloc: Global,
    lists: &mut List<List<ListLine>>,
    total: u64,
    earlier: &Earlier,
    class: &[Pattern],
    spans: &[Span],
) -> Result<(), AllocError>
    requires index { IsIndexed earlier.now }
    requires meets { AllByRecursion (λ q. in_some spans.now (key_of q) ≡ meets_some class.now q) earlier.now.patterns }
    ensures { IfOk result (λ _. total ≤ MAX_LINES → lists.new ≡ lists.old ++ list_for earlier.now.patterns class.now ∷ []) }
{
    if total <= MAX_LINES {
        lists.push(list_of(alloc, earlier, class, spans)?)?;
    }
    Ok(())
}

/// Lists, and how many lines a text with them has.
#[derive(Drop)]
pub struct Listed {
    /// The list of each class, of use only where there aren't too many lines.
    pub lists: List<List<ListLine>>,
    /// How many lines a text with them has, at most 18446744073709551615.
    pub total: u64,
}

/// The lists of the classes, unless a text with this many other lines has more than 1,000,000 lines with them.
pub fn lists_of(alloc: Global, classes: &[List<Pattern>], others: u64) -> Result<Listed, AllocError>
    ensures total { IfOk result (λ l. l.total ≡ min (others + sum_by (λ lines. length lines) (lists_from [] classes.now)) top) }
    ensures lists { IfOk result (λ l. l.total ≤ MAX_LINES → l.lists ≡ lists_from [] classes.now) }
{
    let lengths = lengths_of(alloc, classes)?;
    let mut earlier = no_pattern(alloc);
    let mut lists = List::new(alloc);
    let mut total = others;
    for class in classes {
        let class = class.as_slice();
        let spans = spans_apart(alloc, class, &lengths)?;
        total = total
            .saturating_add(count_denied(&earlier, &spans))
            .saturating_add(class.len() as u64);
        push_list(alloc, &mut lists, total, &earlier, class, &spans)?;
        earlier = with_class(alloc, earlier, class)?;
    }
    Ok(Listed { lists, total })
}
