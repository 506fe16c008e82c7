//! Locations and sets of locations.
ghost use Rattle.std.specs.Prelude.{◌≡◌, ◌<◌, ◌≤◌, ◌||◌, ◌&&◌, ◌==◌, nat_le, nat_lt, ℕ, false};
ghost use Rattle.net_base.specs.Sets.{word_of};
ghost use Rattle.net_base.specs.declared.limits.TheConstants.{LOCATIONS};

use crate::words::{both, either, first_alone, is_zero, with_bit};
use std::marker::Model;

/// A location of a network by its number: the routers count from 0, and the peers follow them.
#[derive(Clone, Copy, Debug, PartialEq, Eq, PartialOrd, Ord, Hash)]
pub struct Loc(u16);

impl Model for Loc {
    ghost use Rattle.std.specs.Prelude.{ℕ};

    ghost Value = { ℕ };

    ghost view = { λ l. l.0 };

    ghost inverse = { λ n. record { 0 = n } };
}

impl Loc {
    /// The location of this number.
    pub fn new(number: u16) -> Loc
        ensures { result ≡ number }
    {
        Loc(number)
    }

    /// The number of the location.
    pub fn number(self) -> u16
        ensures { result ≡ self }
    {
        self.0
    }
}

/// A set of locations below 768, one bit each.
#[derive(Clone, Copy, Debug, PartialEq, Eq, PartialOrd, Ord, Hash)]
pub struct LocSet {
    /// The bit of location `l` is bit `l % 64` of word `l / 64`.
    pub words: [u64; 12],
}

impl LocSet {
    ghost use Rattle.std.specs.Prelude.{not, true};
    ghost use Rattle.net_base.specs.SetOperations.{no_location, with_location, union_of, common as common_of, outside as outside_of, is_empty as has_no_bit, size_of};
    ghost use Rattle.net_base.specs.Sets.{holds, set_of};

    /// The set with no location.
    pub fn new() -> LocSet
        ensures set { result ≡ no_location }
        ensures holds { (l : ℕ) → holds result l ≡ false }
    {
        LocSet { words: [0; 12] }
    }

    /// The set of the locations from `from` on that are below `to` and below 768.
    pub fn of_range(from: u16, to: u16) -> LocSet
        ensures { result ≡ set_of (λ l. nat_le from l && nat_lt l to) }
    {
        let mut words = [0; 12];
        for place in 0..12 {
            words[place] = word_of_range(from, to, 64 * place as u16);
        }
        LocSet { words }
    }

    /// Whether the location is in the set. A location from 768 on is in no set.
    pub fn holds(&self, at: Loc) -> bool
        ensures { result ≡ holds self.now at }
    {
        let place = at.0 as usize;
        place < 768 && (self.words[place / 64] >> (place % 64)) & 1 == 1
    }

    /// Puts a location into the set.
    pub fn insert(&mut self, at: Loc)
        requires { at < LOCATIONS }
        ensures { (l : ℕ) → holds self.new l ≡ (holds self.old l || l == at) }
    {
        let place = at.0 as usize;
        self.words[place / 64] |= 1u64 << (place % 64);
    }

    /// The set with one location more.
    pub fn with(self, at: Loc) -> LocSet
        requires { at < LOCATIONS }
        ensures set { result ≡ with_location self at }
        ensures holds { (l : ℕ) → holds result l ≡ (holds self l || l == at) }
    {
        with_bit(self, at)
    }

    /// The locations of both sets.
    pub fn union(&self, other: &LocSet) -> LocSet
        ensures set { result ≡ union_of self.now other.now }
        ensures holds { (l : ℕ) → holds result l ≡ (holds self.now l || holds other.now l) }
    {
        either(*self, *other)
    }

    /// The locations that both sets have.
    pub fn common(&self, other: &LocSet) -> LocSet
        ensures set { result ≡ common_of self.now other.now }
        ensures holds { (l : ℕ) → holds result l ≡ (holds self.now l && holds other.now l) }
    {
        both(self, other)
    }

    /// The locations of this set that the other hasn't.
    pub fn without(&self, other: &LocSet) -> LocSet
        ensures set { result ≡ outside_of self.now other.now }
        ensures holds { (l : ℕ) → holds result l ≡ (holds self.now l && not (holds other.now l)) }
    {
        first_alone(self, other)
    }

    /// Whether the set has no location.
    pub fn is_empty(&self) -> bool
        ensures words { result ≡ has_no_bit self.now }
        ensures holds { result ≡ true → (l : ℕ) → holds self.now l ≡ false }
    {
        is_zero(&self.words)
    }

    /// How many locations the set has.
    pub fn len(&self) -> u64
        ensures { result ≡ size_of self.now }
    {
        let mut size = 0;
        for word in self.words {
            size += u64::from(word.count_ones());
        }
        size
    }
}

// Whether a number is from `from` on and below `to`.
fn is_between(from: u16, to: u16, at: u16) -> bool
    ensures { result ≡ (nat_le from at && nat_lt at to) }
{
    from <= at && at < to
}

// The word of the 64 locations from `first` on, a bit for each that is in the range.
fn word_of_range(from: u16, to: u16, first: u16) -> u64
    requires { first ≤ 704 }
    ensures { result ≡ word_of (λ l. nat_le from l && nat_lt l to) first 64 }
{
    let mut word = 0;
    for place in 0..64 {
        if is_between(from, to, first + place) {
            word += 1u64 << place;
        }
    }
    word
}
