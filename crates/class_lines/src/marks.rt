//! Tags that stand in lines of two classes, and preferences of one that aren't above those of the other.
ghost use Rattle.std.specs.Prelude.{◌≡◌, ◌++◌, ◌∷◌, [], ℕ, ◌||◌, IfOk, OnOk};
ghost use Rattle.std.specs.List.{filter, list_any};
ghost use Rattle.config_base.specs.Lines.{same_tag};
ghost use Rattle.net_base.specs.declared.numbers.Tag.{Tag as PlainTag};
ghost use Rattle.class_lines.specs.Marks.{
  is_among as is_among_tags,
  is_low,
  least_of_prefs,
  least_of_tags,
  lesser_pref as lesser_of_prefs,
  lesser_tag as lesser_of_tags,
  low_prefs,
  prefs_in,
  prefs_said,
  shared_tags,
  tags_in,
  tags_said,
  within,
};

use crate::class_line::{ClassLine, Says};
use indexmap::IndexSet;
use input_output::NoMemory;
use net_base::{Tag, tag_fits};
use std::alloc::Global;

// Puts a tag to the others.
fn note(tags: &mut IndexSet<Tag>, tag: Tag) -> Result<(), NoMemory>
    ensures { OnOk result ((t : PlainTag) → list_any (same_tag t) tags.new.keys ≡ list_any (same_tag t) (tags.old.keys ++ tag ∷ [])) }
{
    tags.insert(tag)?;
    Ok(())
}

// Puts the tags of a line to the others.
fn note_said(tags: &mut IndexSet<Tag>, says: Says) -> Result<(), NoMemory>
    ensures { OnOk result ((t : PlainTag) → list_any (same_tag t) tags.new.keys ≡ list_any (same_tag t) (tags.old.keys ++ tags_said says)) }
{
    match says {
        Says::Originates(_, tag) | Says::Sends(tag) => note(tags, tag),
        Says::Takes(tag, set, _) => {
            note(tags, tag)?;
            note(tags, set)
        }
    }
}

// The set of the tags in lines.
fn tags_of(alloc: Global, lines: &[ClassLine]) -> Result<IndexSet<Tag>, NoMemory>
    ensures { IfOk result (λ set. (t : PlainTag) → list_any (same_tag t) set.keys ≡ list_any (same_tag t) (tags_in lines.now)) }
{
    let mut tags = IndexSet::new(alloc);
    for line in lines {
        note_said(&mut tags, line.says)?;
    }
    Ok(tags)
}

// Whether it's a tag, and one of these.
fn is_among(tags: &IndexSet<Tag>, tag: Tag) -> bool
    ensures { result ≡ is_among_tags tags.now.keys tag }
{
    tag_fits(tag) && tags.contains(&tag)
}

// Puts a tag behind the others, if it's one of these.
fn push_if_among(shared: &mut Vec<Tag>, tags: &IndexSet<Tag>, tag: Tag) -> Result<(), NoMemory>
    ensures { OnOk result (shared.new.items ≡ shared.old.items ++ filter (is_among_tags tags.now.keys) (tag ∷ [])) }
{
    if is_among(tags, tag) {
        shared.push(tag)?;
    }
    Ok(())
}

// Puts those tags of a line behind the others that are among these.
fn push_said(shared: &mut Vec<Tag>, tags: &IndexSet<Tag>, says: Says) -> Result<(), NoMemory>
    ensures { OnOk result (shared.new.items ≡ shared.old.items ++ filter (is_among_tags tags.now.keys) (tags_said says)) }
{
    match says {
        Says::Originates(_, tag) | Says::Sends(tag) => push_if_among(shared, tags, tag),
        Says::Takes(tag, set, _) => {
            push_if_among(shared, tags, tag)?;
            push_if_among(shared, tags, set)
        }
    }
}

// Puts those tags of lines behind the others that are among these.
fn push_among(
    shared: &mut Vec<Tag>,
    tags: &IndexSet<Tag>,
    lines: &[ClassLine],
) -> Result<(), NoMemory>
    ensures { OnOk result (shared.new.items ≡ shared.old.items ++ filter (is_among_tags tags.now.keys) (tags_in lines.now)) }
{
    for line in lines {
        push_said(shared, tags, line.says)?;
    }
    Ok(())
}

/// Puts those tags of the second lines behind the others that stand in the first ones too.
pub fn push_shared_tags(
    alloc: Global,
    shared: &mut Vec<Tag>,
    old: &[ClassLine],
    new: &[ClassLine],
) -> Result<(), NoMemory>
    ensures { OnOk result (shared.new.items ≡ shared.old.items ++ shared_tags old.now new.now) }
{
    let tags = tags_of(alloc, old)?;
    push_among(shared, &tags, new)
}

// The lesser of two tags.
fn lesser_tag(least: Option<Tag>, tag: Tag) -> Option<Tag>
    ensures { result ≡ lesser_of_tags least tag }
{
    match least {
        None => Some(tag),
        Some(other) => { if tag < other { Some(tag) } else { Some(other) } }
    }
}

/// The least of some tags, by the AS number and then by the value.
pub fn least_tag(tags: &[Tag]) -> Option<Tag>
    ensures { result ≡ least_of_tags tags.now }
{
    let mut least = None;
    for tag in tags {
        least = lesser_tag(least, *tag);
    }
    least
}

// The greater of a preference and that of a line, if it has one.
fn greater_pref(greatest: Option<u32>, says: Says) -> Option<u32>
    ensures { (n : ℕ) → within n result ≡ (within n greatest || is_low (prefs_said says) n) }
{
    match (greatest, says) {
        (Some(other), Says::Takes(_, _, pref)) => Some(other.max(pref)),
        (None, Says::Takes(_, _, pref)) => Some(pref),
        _ => greatest,
    }
}

// The greatest preference of lines.
fn greatest_pref(lines: &[ClassLine]) -> Option<u32>
    ensures { (n : ℕ) → within n result ≡ is_low (prefs_in lines.now) n }
{
    let mut greatest = None;
    for line in lines {
        greatest = greater_pref(greatest, line.says);
    }
    greatest
}

// Whether a preference isn't above the greatest one.
fn is_within(pref: u32, greatest: Option<u32>) -> bool
    ensures { result ≡ within pref greatest }
{
    match greatest {
        Some(other) => pref <= other,
        None => false,
    }
}

// Puts the preference of a line behind the others, if it has one that isn't above this one.
fn push_low(low: &mut Vec<u32>, greatest: Option<u32>, says: Says) -> Result<(), NoMemory>
    ensures { OnOk result (low.new.items ≡ low.old.items ++ filter (λ n. within n greatest) (prefs_said says)) }
{
    if let Says::Takes(_, _, pref) = says {
        if is_within(pref, greatest) {
            low.push(pref)?;
        }
    }
    Ok(())
}

// Puts those preferences of lines behind the others that aren't above this one.
fn push_within(
    low: &mut Vec<u32>,
    greatest: Option<u32>,
    lines: &[ClassLine],
) -> Result<(), NoMemory>
    ensures { OnOk result (low.new.items ≡ low.old.items ++ filter (λ n. within n greatest) (prefs_in lines.now)) }
{
    for line in lines {
        push_low(low, greatest, line.says)?;
    }
    Ok(())
}

/// Puts those preferences of the second lines behind the others that aren't above all of the first ones.
pub fn push_low_prefs(
    low: &mut Vec<u32>,
    old: &[ClassLine],
    new: &[ClassLine],
) -> Result<(), NoMemory>
    ensures { OnOk result (low.new.items ≡ low.old.items ++ low_prefs old.now new.now) }
{
    push_within(low, greatest_pref(old), new)
}

// The lesser of two preferences.
fn lesser_pref(least: Option<u32>, pref: u32) -> Option<u32>
    ensures { result ≡ lesser_of_prefs least pref }
{
    match least {
        None => Some(pref),
        Some(other) => {
            if pref < other {
                Some(pref)
            } else {
                Some(other)
            }
        }
    }
}

/// The least of some preferences.
pub fn least_pref(prefs: &[u32]) -> Option<u32>
    ensures { result ≡ least_of_prefs prefs.now }
{
    let mut least = None;
    for pref in prefs {
        least = lesser_pref(least, *pref);
    }
    least
}
