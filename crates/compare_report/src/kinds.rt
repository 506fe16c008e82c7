//! The same kind of difference at several pairs: at which it is, and at which of their places.
ghost use Rattle.std.specs.Prelude.{◌≡◌, ◌||◌, ◌&&◌, IfOk, OnOk, filter, not};
ghost use Rattle.std.specs.List.{count_by, list_any};
ghost use Rattle.indexmap.specs.IndexSet.{contains};
ghost use Rattle.policy_base.specs.Walks.{is_loop_free as loop_free};
ghost use Rattle.compare_base.specs.declared.rows.Place.{Place as PlainPlace};
ghost use Rattle.compare_base.specs.Same.{same_place};
ghost use Rattle.comparison.specs.declared.values.ComparedPair.{ComparedPair as PlainPair};
ghost use Rattle.compare_report.specs.Groups.{seen};
ghost use Rattle.compare_report.specs.Kinds.{example_walks, has_kind as has_kind_in, has_place, is_one, same_kind as same_kind_in, walks_in as walks_of_kinds, with_more_paths};

use compare_base::{Kind, Place};
use comparison::{ComparedPair, same_rows, same_words};
use indexmap::IndexSet;
use input_output::NoMemory;
use net_base::{List, Loc};
use policy_base::is_loop_free;
use std::alloc::{AllocError, Global};

// Whether two kinds have the same words and rows.
fn same_kind(one: &Kind, other: &Kind) -> bool
    ensures { result ≡ same_kind_in one.now other.now }
{
    same_words(one.words, other.words) && same_rows(one.rows.as_slice(), other.rows.as_slice())
}

// Whether some place of a pair differs in this way.
fn has_kind(kind: &Kind, pair: &ComparedPair) -> bool
    ensures { result ≡ has_kind_in kind.now pair.now }
{
    pair.change
        .kinds
        .as_slice()
        .iter()
        .any(|other| same_kind(kind, other))
}

/// Whether some of these pairs has a place that differs in this way.
#[tactic(auto, using(crate::proofs::Borrowed::seen_next, crate::proofs::Borrowed::seen_push))]
pub fn some_has_kind(group: &[&ComparedPair], kind: &Kind) -> bool
    ensures { result ≡ list_any (has_kind_in kind.now) (seen group.now) }
{
    for pair in group {
        if has_kind(kind, pair) {
            return true;
        }
    }
    false
}

/// The pairs of which something is so, and the others, in order.
#[derive(Drop)]
pub struct Split<'a> {
    /// The pairs of which it is so.
    pub these: Vec<&'a ComparedPair>,
    /// The other pairs.
    pub others: Vec<&'a ComparedPair>,
}

/// The pairs that have places that differ in this way, and the others.
#[tactic(auto, using(crate::proofs::Borrowed::seen_next, crate::proofs::Borrowed::seen_push))]
pub fn split_by_kind<'a>(
    alloc: Global,
    group: &[&'a ComparedPair],
    kind: &Kind,
) -> Result<Split<'a>, AllocError>
    ensures these { IfOk result (λ split. seen split.these.items ≡ filter (has_kind_in kind.now) (seen group.now)) }
    ensures others { IfOk result (λ split. seen split.others.items ≡ filter (λ (x : PlainPair). not (has_kind_in kind.now x)) (seen group.now)) }
{
    let mut these = Vec::new(alloc);
    let mut others = Vec::new(alloc);
    for pair in group {
        if has_kind(kind, pair) {
            these.push(*pair)?;
        } else {
            others.push(*pair)?;
        }
    }
    Ok(Split { these, others })
}

// Puts places into a set.
fn add_places(set: &mut IndexSet<Place>, places: &[Place]) -> Result<(), NoMemory>
    ensures { OnOk result ((q : PlainPlace) → contains same_place set.new q ≡ (contains same_place set.old q || list_any (λ p. same_place p q) places.now)) }
{
    for place in places {
        set.insert(*place)?;
    }
    Ok(())
}

// Puts the places of the kinds that are the same as this one into a set.
fn add_kinds(set: &mut IndexSet<Place>, kind: &Kind, kinds: &[Kind]) -> Result<(), NoMemory>
    ensures { OnOk result ((q : PlainPlace) → contains same_place set.new q ≡ (contains same_place set.old q || list_any (has_place kind.now q) kinds.now)) }
{
    for other in kinds {
        if same_kind(kind, other) {
            add_places(set, other.places.as_slice())?;
        }
    }
    Ok(())
}

/// The places of some pairs that differ in this way, as a set.
#[tactic(auto, using(crate::proofs::Borrowed::seen_next, crate::proofs::Borrowed::seen_push))]
pub fn place_set(
    alloc: Global,
    group: &[&ComparedPair],
    kind: &Kind,
) -> Result<IndexSet<Place>, NoMemory>
    ensures { IfOk result (λ set. (q : PlainPlace) → contains same_place set q ≡ is_one kind.now (seen group.now) q) }
{
    let mut set = IndexSet::new(alloc);
    for pair in group {
        add_kinds(&mut set, kind, pair.change.kinds.as_slice())?;
    }
    Ok(set)
}

// How many walks have no loop.
fn paths(walks: &[List<Loc>]) -> usize
    ensures { result ≡ count_by loop_free walks.now }
{
    let mut count = 0;
    for walk in walks {
        if is_loop_free(walk.as_slice()) {
            count += 1;
        }
    }
    count
}

// The first walks, unless the others have more without a loop.
fn more_paths<'a>(walks: &'a [List<Loc>], others: &'a [List<Loc>]) -> &'a [List<Loc>]
    ensures { result.now ≡ with_more_paths walks.now others.now }
{
    if paths(walks) < paths(others) {
        others
    } else {
        walks
    }
}

// The first of these walks and those by which the kinds show this one that has most paths.
fn more_in<'a>(walks: &'a [List<Loc>], kind: &Kind, kinds: &'a [Kind]) -> &'a [List<Loc>]
    ensures { result.now ≡ with_more_paths walks.now (walks_of_kinds kind.now kinds.now) }
{
    for other in kinds {
        if same_kind(kind, other) {
            return more_paths(walks, other.walks.as_slice());
        }
    }
    walks
}

/// The walks that show a kind, which the first of these pairs has: those of the pair of which most have no loop.
#[tactic(auto, using(crate::proofs::Borrowed::seen_next, crate::proofs::Borrowed::seen_push))]
pub fn example<'a>(group: &[&'a ComparedPair], kind: &'a Kind) -> &'a [List<Loc>]
    ensures { result.now ≡ example_walks kind.now (seen group.now) }
{
    let mut walks = kind.walks.as_slice();
    for pair in group {
        walks = more_in(walks, kind, pair.change.kinds.as_slice());
    }
    walks
}
