//! The words of a line, kept without memory.
ghost use Rattle.std.specs.Prelude.{◌≡◌, ◌==◌, ◌<◌, IfNone, IfSome, length, map};
ghost use Rattle.std.specs.List.{slice_split};

use crate::cut::first_part;
use std::marker::Model;

// How many words a line that has a form has at the most: `in N list L match T set T pref N` of a maps text.
const MOST_WORDS: usize = 10;

/// The words of a line, of which there are at most ten.
#[derive(Drop)]
pub struct Words<'a> {
    places: [&'a [u8]; MOST_WORDS],
    count: usize,
}

impl<'a> Model for Words<'a> {
    ghost use Rattle.std.specs.Prelude.{◌≤◌, ℕ, List, map, take};

    ghost Value = { List (List ℕ) };

    ghost view = { λ w. map (λ p. p.now) (take w.count w.places) };

    ghost invariant = { λ w. w.count ≤ 10 };
}

impl<'a> Words<'a> {
    /// The words between the spaces of a line, None where they are more than a line of any form has.
    pub fn of(line: &'a [u8]) -> Option<Words<'a>>
        ensures some { IfSome result (λ w. w ≡ slice_split (λ b. b == 32) line.now) }
        ensures none { IfNone result (10 < length (slice_split (λ b. b == 32) line.now)) }
    {
        let mut places = [line; MOST_WORDS];
        let mut count = 0;
        let mut left = Some(line);
        while let Some(bytes) = left {
            if count == MOST_WORDS {
                return None;
            }
            let (word, more) = first_part(b' ', bytes);
            places[count] = word;
            count += 1;
            left = more;
        }
        Some(Words { places, count })
    }

    /// The words one after another.
    pub fn as_slice(&self) -> &[&'a [u8]]
        ensures { map (λ w. w.now) result.now ≡ self.now }
    {
        &self.places[..self.count]
    }
}
