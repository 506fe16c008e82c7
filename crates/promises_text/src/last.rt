//! What is said after the cases. Each `push_` function adds a text to the end of another.
ghost use Rattle.std.specs.Fmt.{decimal};
ghost use Rattle.std.specs.List.{flat_map};
ghost use Rattle.std.specs.Prelude.{◌≡◌, ◌++◌, OnOk};
ghost use Rattle.policy_base.specs.Policies.{policy_of};
ghost use Rattle.promises_text.specs.Texts.{
  apart_line,
  count_line,
  is_uncarried as is_uncarried_by,
  kinds_text,
  last_rank,
  places_text,
  two_ranks,
  uncarried_prefix,
};

use input_output::NoMemory;
use policy_base::{Origin, Policy, governing};
use promises_report::{ApartRanks, Counts};
use text_parts::{push_bytes, push_number, push_prefix};

/// Whether no statement governs an originated prefix.
pub fn is_uncarried(policy: &Policy, origin: &Origin) -> bool
    ensures { result ≡ is_uncarried_by (policy_of policy.now) origin.now }
{
    governing(policy, origin.prefix).is_none()
}

/// Adds an originated prefix after a space, where no statement governs it.
#[tactic(auto, unfolding(crate::specs::Texts::uncarried_prefix))]
pub fn push_uncarried(text: &mut Vec<u8>, policy: &Policy, origin: &Origin) -> Result<(), NoMemory>
    ensures { OnOk result (text.new.items ≡ text.old.items ++ uncarried_prefix (policy_of policy.now) origin.now) }
{
    if !is_uncarried(policy, origin) {
        return Ok(());
    }
    push_bytes(text, b" ")?;
    push_prefix(text, origin.prefix)
}

// Adds a word and a number.
fn push_count(text: &mut Vec<u8>, word: &[u8], count: u64) -> Result<(), NoMemory>
    ensures { OnOk result (text.new.items ≡ text.old.items ++ word.now ++ decimal count) }
{
    push_bytes(text, word)?;
    push_number(text, count)
}

// Adds how many lines of each kind the cases have.
#[tactic(auto, unfolding(crate::specs::Texts::kinds_text))]
fn push_kinds(text: &mut Vec<u8>, counts: Counts) -> Result<(), NoMemory>
    ensures { OnOk result (text.new.items ≡ text.old.items ++ kinds_text counts) }
{
    push_count(text, b" unclaimed ", counts.unclaimed)?;
    push_count(text, b" transit ", counts.transit)?;
    push_count(text, b" covered ", counts.covered)?;
    push_count(text, b" unused ", counts.unused)
}

// Adds the second of two ranks.
#[tactic(auto, unfolding(crate::specs::Texts::last_rank))]
fn push_last_rank(text: &mut Vec<u8>, worse: u32) -> Result<(), NoMemory>
    ensures { OnOk result (text.new.items ≡ text.old.items ++ last_rank worse) }
{
    push_bytes(text, b" ")?;
    push_number(text, u64::from(worse))?;
    push_bytes(text, b"\n")
}

// Adds two ranks.
#[tactic(auto, unfolding(crate::specs::Texts::two_ranks))]
fn push_ranks(text: &mut Vec<u8>, better: u32, worse: u32) -> Result<(), NoMemory>
    ensures { OnOk result (text.new.items ≡ text.old.items ++ two_ranks better worse) }
{
    push_bytes(text, b" alternatives ")?;
    push_number(text, u64::from(better))?;
    push_last_rank(text, worse)
}

// Adds the line of two ranks that no source has both of.
#[tactic(auto, unfolding(crate::specs::Texts::apart_line))]
fn push_apart(text: &mut Vec<u8>, pair: &ApartRanks) -> Result<(), NoMemory>
    ensures { OnOk result (text.new.items ≡ text.old.items ++ apart_line pair.now) }
{
    push_bytes(text, b"apart statement ")?;
    push_number(text, u64::from(pair.statement))?;
    push_ranks(text, pair.better, pair.worse)
}

/// Adds the lines of ranks that no source has both of.
pub fn push_all_apart(text: &mut Vec<u8>, pairs: &[ApartRanks]) -> Result<(), NoMemory>
    ensures { OnOk result (text.new.items ≡ text.old.items ++ flat_map apart_line pairs.now) }
{
    for pair in pairs {
        push_apart(text, pair)?;
    }
    Ok(())
}

// Adds how many prefixes, parts and pairs of ranks stand after the cases.
#[tactic(auto, unfolding(crate::specs::Texts::places_text))]
fn push_places(
    text: &mut Vec<u8>,
    uncarried: usize,
    parts: usize,
    pairs: usize,
) -> Result<(), NoMemory>
    ensures { OnOk result (text.new.items ≡ text.old.items ++ places_text uncarried parts pairs) }
{
    push_count(text, b" uncarried ", uncarried as u64)?;
    push_count(text, b" open ", parts as u64)?;
    push_count(text, b" apart ", pairs as u64)?;
    push_bytes(text, b"\n")
}

/// Adds the line that counts cases, and lines of each kind.
#[tactic(auto, unfolding(crate::specs::Texts::count_line))]
pub fn push_counts(
    text: &mut Vec<u8>,
    cases: usize,
    counts: Counts,
    uncarried: usize,
    parts: usize,
    pairs: usize,
) -> Result<(), NoMemory>
    ensures { OnOk result (text.new.items ≡ text.old.items ++ count_line cases counts uncarried parts pairs) }
{
    push_count(text, b"cases ", cases as u64)?;
    push_kinds(text, counts)?;
    push_places(text, uncarried, parts, pairs)
}
