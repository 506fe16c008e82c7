//! Whether two differences are told by the same words, and by the same rows.
ghost use Rattle.std.specs.Prelude.{◌≡◌};
ghost use lib.Pointwise.{pointwise};
ghost use Rattle.compare_base.specs.Same.{same_row, same_words as same_words_in};

use compare_base::{Row, Words};

/// Whether two places differ in the same words.
pub fn same_words(one: Words, other: Words) -> bool
    ensures { result ≡ same_words_in one other }
{
    match (one, other) {
        (
            Words::Partly {
                lost,
                gained,
                reordered,
            },
            Words::Partly {
                lost: lost_too,
                gained: gained_too,
                reordered: reordered_too,
            },
        ) => lost == lost_too && (gained == gained_too && reordered == reordered_too),
        (Words::Unclaimed, Words::Unclaimed) => true,
        (Words::Claimed, Words::Claimed) => true,
        (Words::Replaced, Words::Replaced) => true,
        _ => false,
    }
}

/// Whether these are the same rows.
pub fn same_rows(one: &[Row], other: &[Row]) -> bool
    ensures { result ≡ pointwise same_row one.now other.now }
{
    one == other
}
