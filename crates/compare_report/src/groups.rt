//! Which pairs are told as one change, and their prefixes and origins.
ghost use Rattle.std.specs.Prelude.{◌≡◌, ◌++◌, ◌∷◌, ◌||◌, IfOk, OnOk, filter};
ghost use Rattle.std.specs.List.{list_any};
ghost use Rattle.indexmap.specs.IndexSet.{contains};
ghost use Rattle.net_base.specs.Prefixes.{PlainPrefix, same_prefix};
ghost use Rattle.compare_base.specs.Cases.{is_originated as originated_by};
ghost use Rattle.comparison.specs.declared.values.ComparedPair.{ComparedPair as PlainPair};
ghost use Rattle.compare_report.specs.Groups.{fewer_lines, is_among, is_with as is_with_in, move_alike as move_alike_in, origins_stay as origins_stay_in, part_lines, seen, prefix_lines, prefixes_in, same_group as same_group_in, same_statements as same_statements_in};

use compare_base::{CasePair, PairPrefixes};
use compare_lines::{push_patterns, push_runs};
use comparison::ComparedPair;
use indexmap::IndexSet;
use input_output::NoMemory;
use net_base::Prefix;
use std::alloc::{AllocError, Global};

/// Whether some item originates the prefixes of a pair.
pub fn is_originated(cases: &CasePair) -> bool
    ensures { result ≡ originated_by cases.now }
{
    cases.old.origins.is_some() || cases.new.origins.is_some()
}

/// Whether the origins are the same in both policies.
pub fn origins_stay(cases: &CasePair) -> bool
    ensures { result ≡ origins_stay_in cases.now }
{
    cases.old.origins == cases.new.origins
}

// Whether two pairs have the same two statements.
fn same_statements(one: &CasePair, other: &CasePair) -> bool
    ensures { result ≡ same_statements_in one.now other.now }
{
    one.old.statement == other.old.statement && one.new.statement == other.new.statement
}

// Whether the origins of two pairs change in the same way.
fn move_alike(one: &CasePair, other: &CasePair) -> bool
    ensures { result ≡ move_alike_in one.now other.now }
{
    (origins_stay(one) && origins_stay(other))
        || ((one.old.origins.is_none() && other.old.origins.is_none())
            || (one.new.origins.is_none() && other.new.origins.is_none()))
}

// Whether two pairs are told as one change.
fn same_group(one: &CasePair, other: &CasePair) -> bool
    ensures { result ≡ same_group_in one.now other.now }
{
    (is_originated(one) && is_originated(other))
        && (same_statements(one, other) && move_alike(one, other))
}

/// Whether a pair is told with another one.
pub fn is_with(one: &ComparedPair, other: &ComparedPair) -> bool
    ensures { result ≡ is_with_in one.now other.now }
{
    same_group(&one.pair.cases, &other.pair.cases)
}

/// Whether a pair is told with some of the others.
pub fn is_with_some(pair: &ComparedPair, others: &[ComparedPair]) -> bool
    ensures { result ≡ list_any (is_with_in pair.now) others.now }
{
    others.iter().any(|other| is_with(pair, other))
}

/// A pair, and those behind it that are told with it.
#[tactic(auto, using(crate::proofs::Borrowed::seen_next, crate::proofs::Borrowed::seen_push))]
pub fn group_of<'a>(
    alloc: Global,
    first: &'a ComparedPair,
    after: &'a [ComparedPair],
) -> Result<Vec<&'a ComparedPair>, AllocError>
    ensures { IfOk result (λ group. seen group.items ≡ first.now ∷ filter (is_with_in first.now) after.now) }
{
    let mut group = Vec::new(alloc);
    group.push(first)?;
    for other in after {
        if is_with(first, other) {
            group.push(other)?;
        }
    }
    Ok(group)
}

/// Puts prefixes into a set.
pub fn add_prefixes(set: &mut IndexSet<Prefix>, prefixes: &[Prefix]) -> Result<(), NoMemory>
    ensures { OnOk result ((p : PlainPrefix) → contains same_prefix set.new p ≡ (contains same_prefix set.old p || list_any (λ q. same_prefix q p) prefixes.now)) }
{
    for prefix in prefixes {
        set.insert(*prefix)?;
    }
    Ok(())
}

// Puts the originated prefixes of a pair into a set.
fn add_pair(set: &mut IndexSet<Prefix>, prefixes: &PairPrefixes) -> Result<(), NoMemory>
    ensures { OnOk result ((p : PlainPrefix) → contains same_prefix set.new p ≡ (contains same_prefix set.old p || is_among p prefixes.now)) }
{
    match prefixes {
        PairPrefixes::Originated(prefixes) => add_prefixes(set, prefixes.as_slice()),
        PairPrefixes::Others(_) => Ok(()),
    }
}

// The originated prefixes of some pairs, as a set.
#[tactic(auto, using(crate::proofs::Borrowed::seen_next, crate::proofs::Borrowed::seen_push))]
fn prefix_set(alloc: Global, group: &[&ComparedPair]) -> Result<IndexSet<Prefix>, NoMemory>
    ensures { IfOk result (λ set. (p : PlainPrefix) → contains same_prefix set p ≡ list_any (λ (x : PlainPair). is_among p x.pair.prefixes) (seen group.now)) }
{
    let mut set = IndexSet::new(alloc);
    for pair in group {
        add_pair(&mut set, &pair.pair.prefixes)?;
    }
    Ok(set)
}

// Whether the set of the originated prefixes of some pairs has this one.
fn has_prefix(group: &[&ComparedPair], set: &IndexSet<Prefix>, prefix: Prefix) -> bool
    requires { (p : PlainPrefix) → contains same_prefix set.now p ≡ list_any (λ (x : PlainPair). is_among p x.pair.prefixes) (seen group.now) }
    ensures { result ≡ list_any (λ (x : PlainPair). is_among prefix x.pair.prefixes) (seen group.now) }
{
    set.contains(&prefix)
}

// The originated prefixes of some pairs, in order.
fn prefixes_of(
    alloc: Global,
    order: &[Prefix],
    group: &[&ComparedPair],
) -> Result<Vec<Prefix>, NoMemory>
    ensures { IfOk result (λ list. list.items ≡ prefixes_in order.now (seen group.now)) }
{
    let set = prefix_set(alloc, group)?;
    let mut list = Vec::new(alloc);
    for prefix in order {
        if has_prefix(group, &set, *prefix) {
            list.push(*prefix)?;
        }
    }
    Ok(list)
}

/// Adds the lines of the prefixes of a group, of whose first pair these are the prefixes.
pub fn push_prefixes(
    alloc: Global,
    text: &mut Vec<u8>,
    order: &[Prefix],
    group: &[&ComparedPair],
    prefixes: &PairPrefixes,
) -> Result<(), NoMemory>
    ensures { OnOk result (text.new.items ≡ text.old.items ++ prefix_lines order.now (seen group.now) prefixes.now) }
{
    match prefixes {
        PairPrefixes::Originated(_) => {
            let list = prefixes_of(alloc, order, group)?;
            push_runs(text, b"prefix ", &list)
        }
        PairPrefixes::Others(patterns) => push_patterns(text, patterns.as_slice()),
    }
}

// Adds the lines of some prefixes, or of the others where they are fewer.
fn push_fewer(text: &mut Vec<u8>, these: &[Prefix], others: &[Prefix]) -> Result<(), NoMemory>
    ensures { OnOk result (text.new.items ≡ text.old.items ++ fewer_lines these.now others.now) }
{
    if these.len() <= others.len() {
        push_runs(text, b"only ", these)
    } else {
        push_runs(text, b"but ", others)
    }
}

/// Adds the lines that say for which prefixes something is so, where it isn't for all.
pub fn push_parts(
    alloc: Global,
    text: &mut Vec<u8>,
    order: &[Prefix],
    these: &[&ComparedPair],
    others: &[&ComparedPair],
) -> Result<(), NoMemory>
    ensures { OnOk result (text.new.items ≡ text.old.items ++ part_lines order.now (seen these.now) (seen others.now)) }
{
    match others {
        [] => Ok(()),
        [_, ..] => {
            let these = prefixes_of(alloc, order, these)?;
            let others = prefixes_of(alloc, order, others)?;
            push_fewer(text, &these, &others)
        }
    }
}
