//! The patterns of a `class` line.
ghost use Rattle.std.specs.Prelude.{◌≡◌, ◌∷◌, [], map, option_map};
ghost use Rattle.net_base.specs.Gives.{GivesUnless};
ghost use Rattle.config_lines.specs.Parts.{parts_left};
ghost use Rattle.config_lines.specs.Patterns.{up_to, pattern_of, behind_space, later_pattern, later_patterns};

use crate::cut::first_part;
use crate::line::LineFault;
use crate::parts::{expect, prefix};
use crate::words::Words;
use net_base::{List, Pattern, Prefix, read_length};
use std::alloc::Global;

// The pattern of a base up to the length that a word is.
#[tactic(auto, unfolding(crate::specs::Patterns::up_to))]
fn pattern_up_to(base: Prefix, word: &[u8]) -> Result<Pattern, LineFault>
    ensures { result ≡ up_to base word.now }
{
    let Some(upto) = read_length(word) else {
        return Err(LineFault::Form);
    };
    if upto <= u16::from(base.len()) || upto > 32 {
        return Err(LineFault::Form);
    }
    Ok(Pattern::new(base, upto as u8))
}

/// The pattern of some words: a prefix, and behind it `le` with the greatest length where that is greater.
#[tactic(auto, unfolding(crate::specs::Patterns::pattern_of))]
pub fn read_pattern(words: &[&[u8]]) -> Result<Pattern, LineFault>
    ensures { result ≡ pattern_of (map (λ w. w.now) words.now) }
{
    match words {
        [base] => {
            let base = prefix(base)?;
            Ok(Pattern::only(base))
        }
        [base, le, upto] => {
            let base = prefix(base)?;
            expect("le", le)?;
            pattern_up_to(base, upto)
        }
        _ => Err(LineFault::Form),
    }
}

// The pattern of some words, before the first of which a space stands.
fn pattern_behind_space(words: &[&[u8]]) -> Result<Pattern, LineFault>
    ensures { result ≡ behind_space (map (λ w. w.now) words.now) }
{
    let [gap, pattern @ ..] = words else {
        return Err(LineFault::Form);
    };
    expect("", gap)?;
    read_pattern(pattern)
}

// The pattern between two commas, which stands behind a space.
fn read_later_pattern(piece: &[u8]) -> Result<Pattern, LineFault>
    ensures { result ≡ later_pattern piece.now }
{
    match Words::of(piece) {
        Some(words) => pattern_behind_space(words.as_slice()),
        None => Err(LineFault::Form),
    }
}

/// The patterns of a line: the first one, and those of its other pieces, which are what stands behind the first comma.
pub fn read_patterns(
    alloc: Global,
    first: Pattern,
    pieces: Option<&[u8]>,
) -> Result<List<Pattern>, LineFault>
    ensures { GivesUnless LineFault.NoMemory (λ v. v) result (later_patterns (first ∷ []) (parts_left 44 (option_map (λ p. p.now) pieces.entry))) }
{
    let mut all = Vec::with_capacity(alloc, 1)?;
    all.push(first)?;
    let mut left = pieces;
    while let Some(bytes) = left {
        let (piece, more) = first_part(b',', bytes);
        let pattern = read_later_pattern(piece)?;
        all.push(pattern)?;
        left = more;
    }
    Ok(List::from_vec(all))
}
