//! Sets of locations, word by word.
ghost use Rattle.std.specs.Prelude.{◌≡◌, ◌<◌, ◌==◌};
ghost use Rattle.std.specs.List.{list_all};
ghost use Rattle.net_base.specs.declared.limits.TheConstants.{LOCATIONS};
ghost use Rattle.net_base.specs.SetOperations.{with_location, union_of, common, outside};

use crate::loc::{Loc, LocSet};

/// The set with the bit of one location set.
pub(crate) fn with_bit(set: LocSet, at: Loc) -> LocSet
    requires { at < LOCATIONS }
    ensures { result ≡ with_location set at }
{
    let place = at.number() as usize;
    let mut words = set.words;
    words[place / 64] |= 1u64 << (place % 64);
    LocSet { words }
}

/// The bits that are set in one of two sets.
pub(crate) fn either(a: LocSet, b: LocSet) -> LocSet
    ensures { result ≡ union_of a b }
{
    let mut words = a.words;
    for i in 0..12 {
        words[i] |= b.words[i];
    }
    LocSet { words }
}

/// The bits that are set in both.
pub(crate) fn both(a: &LocSet, b: &LocSet) -> LocSet
    ensures { result ≡ common a.now b.now }
{
    let mut words = a.words;
    for i in 0..12 {
        words[i] = a.words[i] & b.words[i];
    }
    LocSet { words }
}

/// The bits that are set in the first alone.
pub(crate) fn first_alone(a: &LocSet, b: &LocSet) -> LocSet
    ensures { result ≡ outside a.now b.now }
{
    let mut words = a.words;
    for i in 0..12 {
        words[i] = a.words[i] & (a.words[i] ^ b.words[i]);
    }
    LocSet { words }
}

/// Whether no bit is set.
pub(crate) fn is_zero(words: &[u64]) -> bool
    ensures { result ≡ list_all (λ w. w == 0) words.now }
{
    words.iter().all(|w| *w == 0)
}
