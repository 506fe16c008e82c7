//! The text of a comparison. Each `push_` function adds a text to the end of another.
ghost use Rattle.std.specs.Prelude.{◌≡◌, ◌++◌, [], IfOk, OnOk};
ghost use Rattle.std.specs.List.{count_by, flat_map, list_any};
ghost use Rattle.policy_base.specs.Policies.{policy_of};
ghost use Rattle.comparison.specs.Changed.{is_changed};
ghost use Rattle.compare_report.specs.Changes.{
  change_lines,
  compare_text as text_of,
  group_lines,
  head_line,
  last_line,
  lines_at,
  lines_from,
};
ghost use Rattle.compare_report.specs.Groups.{seen};
ghost use Rattle.compare_report.specs.Kinds.{all_kind_lines, carrier_lines, carrier_lines_of, carriers_word, kind_lines, kind_lines_of, kind_lines_unless, words_text, word_if};

use crate::carriers::{Carrying, some_carriers, split_by_carriers};
use crate::groups::{group_of, is_with_some, push_parts, push_prefixes};
use crate::kinds::{example, some_has_kind, split_by_kind};
use crate::order::originated;
use crate::origins::push_origins;
use crate::places::{push_carrier_places, push_places};
use compare_base::{CasePair, Kind, Words};
use compare_lines::{push_number_or_none, push_rows};
use comparison::{ComparedPair, has_changed};
use input_output::NoMemory;
use net_base::{Net, Prefix};
use policy_base::Policy;
use std::alloc::Global;
use text_parts::{push_bytes, push_number};

// Whether one of these pairs has changed.
#[tactic(auto, using(crate::proofs::Borrowed::seen_next, crate::proofs::Borrowed::seen_push))]
fn some_changed(net: &Net, group: &[&ComparedPair]) -> bool
    ensures { result ≡ list_any (is_changed net.now) (seen group.now) }
{
    for pair in group {
        if has_changed(net, pair) {
            return true;
        }
    }
    false
}

// How many pairs have changed.
fn changed(net: &Net, pairs: &[ComparedPair]) -> usize
    ensures { result ≡ count_by (is_changed net.now) pairs.now }
{
    let mut count = 0;
    for pair in pairs {
        if has_changed(net, pair) {
            count += 1;
        }
    }
    count
}

// Adds the line with the statements of a change.
#[tactic(auto, unfolding(crate::specs::Changes::head_line))]
fn push_head(text: &mut Vec<u8>, cases: &CasePair) -> Result<(), NoMemory>
    ensures { OnOk result (text.new.items ≡ text.old.items ++ head_line cases.now) }
{
    push_bytes(text, b"change statement ")?;
    push_number_or_none(text, cases.old.statement)?;
    push_bytes(text, b" now ")?;
    push_number_or_none(text, cases.new.statement)?;
    push_bytes(text, b"\n")
}

// Adds a word, where it holds.
#[tactic(auto, unfolding(crate::specs::Kinds::word_if))]
fn push_if(text: &mut Vec<u8>, holds: bool, word: &[u8]) -> Result<(), NoMemory>
    ensures { OnOk result (text.new.items ≡ text.old.items ++ word_if holds word.now) }
{
    if holds {
        push_bytes(text, word)
    } else {
        Ok(())
    }
}

// Adds the words in which places differ.
fn push_words(text: &mut Vec<u8>, words: Words) -> Result<(), NoMemory>
    ensures { OnOk result (text.new.items ≡ text.old.items ++ words_text words) }
{
    match words {
        Words::Partly {
            lost,
            gained,
            reordered,
        } => {
            push_if(text, lost, b" lost")?;
            push_if(text, gained, b" gained")?;
            push_if(text, reordered, b" reordered")
        }
        Words::Unclaimed => push_bytes(text, b" unclaimed"),
        Words::Claimed => push_bytes(text, b" claimed"),
        Words::Replaced => push_bytes(text, b" replaced"),
    }
}

// Adds the lines of a kind of difference that these pairs have and the others haven't.
fn push_kind_of(
    alloc: Global,
    text: &mut Vec<u8>,
    net: &Net,
    order: &[Prefix],
    kind: &Kind,
    these: &[&ComparedPair],
    others: &[&ComparedPair],
) -> Result<(), NoMemory>
    ensures { OnOk result (text.new.items ≡ text.old.items ++ kind_lines_of net.now order.now kind.now (seen these.now) (seen others.now)) }
{
    push_bytes(text, b"differs")?;
    push_words(text, kind.words)?;
    push_bytes(text, b"\n")?;
    push_parts(alloc, text, order, these, others)?;
    push_places(alloc, text, net, these, kind)?;
    push_rows(text, net, kind.rows.as_slice(), example(these, kind))
}

// Adds the lines of a kind of difference of a group.
fn push_kind(
    alloc: Global,
    text: &mut Vec<u8>,
    net: &Net,
    order: &[Prefix],
    group: &[&ComparedPair],
    kind: &Kind,
) -> Result<(), NoMemory>
    ensures { OnOk result (text.new.items ≡ text.old.items ++ kind_lines net.now order.now (seen group.now) kind.now) }
{
    let split = split_by_kind(alloc, group, kind)?;
    push_kind_of(alloc, text, net, order, kind, &split.these, &split.others)
}

// Adds the lines of the kinds of a pair that none of the earlier ones has.
fn push_new_kinds(
    alloc: Global,
    text: &mut Vec<u8>,
    net: &Net,
    order: &[Prefix],
    group: &[&ComparedPair],
    before: &[&ComparedPair],
    kinds: &[Kind],
) -> Result<(), NoMemory>
    ensures { OnOk result (text.new.items ≡ text.old.items ++ flat_map (kind_lines_unless net.now order.now (seen group.now) (seen before.now)) kinds.now) }
{
    for kind in kinds {
        if !some_has_kind(before, kind) {
            push_kind(alloc, text, net, order, group, kind)?;
        }
    }
    Ok(())
}

// Adds the lines of all kinds of difference of a group.
#[tactic(auto, using(crate::proofs::Telling::kinds_next))]
fn push_kinds(
    alloc: Global,
    text: &mut Vec<u8>,
    net: &Net,
    order: &[Prefix],
    group: &[&ComparedPair],
) -> Result<(), NoMemory>
    ensures { OnOk result (text.new.items ≡ text.old.items ++ all_kind_lines net.now order.now (seen group.now) [] (seen group.now)) }
{
    for i in 0..group.len() {
        let kinds = group[i].change.kinds.as_slice();
        push_new_kinds(alloc, text, net, order, group, &group[..i], kinds)?;
    }
    Ok(())
}

// Adds the word of those who carry in one policy alone.
fn push_carriers_word(text: &mut Vec<u8>, which: Carrying) -> Result<(), NoMemory>
    ensures { OnOk result (text.new.items ≡ text.old.items ++ carriers_word which) }
{
    match which {
        Carrying::Lost => push_bytes(text, b"carriers lost\n"),
        Carrying::Gained => push_bytes(text, b"carriers gained\n"),
    }
}

// Adds the lines of the routers that carry in one policy alone for these pairs, and not for the others.
fn push_carriers_of(
    alloc: Global,
    text: &mut Vec<u8>,
    net: &Net,
    order: &[Prefix],
    which: Carrying,
    these: &[&ComparedPair],
    others: &[&ComparedPair],
) -> Result<(), NoMemory>
    ensures { OnOk result (text.new.items ≡ text.old.items ++ carrier_lines_of net.now order.now which (seen these.now) (seen others.now)) }
{
    push_carriers_word(text, which)?;
    push_parts(alloc, text, order, these, others)?;
    push_carrier_places(alloc, text, net, these, which)
}

// Adds the lines of the routers that carry in one policy alone for a group.
fn push_carriers(
    alloc: Global,
    text: &mut Vec<u8>,
    net: &Net,
    order: &[Prefix],
    group: &[&ComparedPair],
    which: Carrying,
) -> Result<(), NoMemory>
    ensures { OnOk result (text.new.items ≡ text.old.items ++ carrier_lines net.now order.now (seen group.now) which) }
{
    if !some_carriers(group, which) {
        return Ok(());
    }
    let split = split_by_carriers(alloc, group, which)?;
    push_carriers_of(alloc, text, net, order, which, &split.these, &split.others)
}

// Adds the lines of a group, of which this is the first pair.
fn push_group(
    alloc: Global,
    text: &mut Vec<u8>,
    net: &Net,
    order: &[Prefix],
    group: &[&ComparedPair],
    first: &ComparedPair,
) -> Result<(), NoMemory>
    ensures { OnOk result (text.new.items ≡ text.old.items ++ group_lines net.now order.now (seen group.now) first.now) }
{
    push_head(text, &first.pair.cases)?;
    push_prefixes(alloc, text, order, group, &first.pair.prefixes)?;
    push_origins(alloc, text, net, group, &first.pair.cases)?;
    push_kinds(alloc, text, net, order, group)?;
    push_carriers(alloc, text, net, order, group, Carrying::Lost)?;
    push_carriers(alloc, text, net, order, group, Carrying::Gained)
}

// Adds the lines of a group, of which this is the first pair, where one of its pairs has changed.
#[tactic(auto, unfolding(crate::specs::Changes::change_lines))]
fn push_change(
    alloc: Global,
    text: &mut Vec<u8>,
    net: &Net,
    order: &[Prefix],
    group: &[&ComparedPair],
    first: &ComparedPair,
) -> Result<(), NoMemory>
    ensures { OnOk result (text.new.items ≡ text.old.items ++ change_lines net.now order.now (seen group.now) first.now) }
{
    if !some_changed(net, group) {
        return Ok(());
    }
    push_group(alloc, text, net, order, group, first)
}

// Adds the lines of the group of a pair, unless it is in the group of an earlier one.
#[tactic(auto, unfolding(crate::specs::Changes::lines_at))]
fn push_at(
    alloc: Global,
    text: &mut Vec<u8>,
    net: &Net,
    order: &[Prefix],
    before: &[ComparedPair],
    pair: &ComparedPair,
    after: &[ComparedPair],
) -> Result<(), NoMemory>
    ensures { OnOk result (text.new.items ≡ text.old.items ++ lines_at net.now order.now before.now pair.now after.now) }
{
    if is_with_some(pair, before) {
        return Ok(());
    }
    let group = group_of(alloc, pair, after)?;
    push_change(alloc, text, net, order, &group, pair)
}

// Adds the lines of all groups.
#[tactic(auto, using(crate::proofs::Telling::lines_next))]
fn push_changes(
    alloc: Global,
    text: &mut Vec<u8>,
    net: &Net,
    order: &[Prefix],
    pairs: &[ComparedPair],
) -> Result<(), NoMemory>
    ensures { OnOk result (text.new.items ≡ text.old.items ++ lines_from net.now order.now [] pairs.now) }
{
    for i in 0..pairs.len() {
        push_at(
            alloc,
            text,
            net,
            order,
            &pairs[..i],
            &pairs[i],
            &pairs[i + 1..],
        )?;
    }
    Ok(())
}

// Adds the line that counts pairs.
#[tactic(auto, unfolding(crate::specs::Changes::last_line))]
fn push_counts(text: &mut Vec<u8>, pairs: usize, changed: usize) -> Result<(), NoMemory>
    ensures { OnOk result (text.new.items ≡ text.old.items ++ last_line pairs changed) }
{
    push_bytes(text, b"cases ")?;
    push_number(text, pairs as u64)?;
    push_bytes(text, b" changed ")?;
    push_number(text, changed as u64)?;
    push_bytes(text, b"\n")
}

/// The text of a comparison: each group of pairs of which one has changed, and how many pairs there are and have.
pub fn compare_text(
    alloc: Global,
    net: &Net,
    old: &Policy,
    new: &Policy,
    pairs: &[ComparedPair],
) -> Result<Vec<u8>, NoMemory>
    ensures { IfOk result (λ text. text.items ≡ text_of net.now (policy_of old.now) (policy_of new.now) pairs.now) }
{
    let order = originated(alloc, old, new)?;
    let mut text = Vec::new(alloc);
    push_changes(alloc, &mut text, net, &order, pairs)?;
    push_counts(&mut text, pairs.len(), changed(net, pairs))?;
    Ok(text)
}
