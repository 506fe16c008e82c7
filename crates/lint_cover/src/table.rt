//! Patterns by their bases.
ghost use Rattle.std.specs.Prelude.{◌≡◌, ◌≤◌, ◌+◌, ◌↔◌, unwrap_or, IsTrue, List as Items, [], ◌∷◌, ◌++◌, IfOk, OnOk};
ghost use Rattle.indexmap.specs.IndexMap.{get};
ghost use Rattle.net_base.specs.Prefixes.{PlainPattern, IsPattern, same_prefix};
ghost use Rattle.lint_cover.specs.Covered.{AreCovered, IsCovered, covered, covered_below, depth_at};
ghost use Rattle.lint_cover.specs.Tables.{Holds, cut_at};

use crate::covered::{high, low};
use indexmap::IndexMap;
use input_output::NoMemory;
use net_base::{Pattern, Prefix};
use std::alloc::Global;

/// Patterns that were put in, one after another. One is asked against all of them by a look-up for each block of addresses
/// at which its cover changes.
#[derive(Drop)]
pub struct PatternTable {
    /// For each base one more than the greatest length that a pattern with it contains.
    ends: IndexMap<Prefix, u8>,
}

// The first bits of a prefix, as many as `len`.
fn cut(prefix: Prefix, len: u8) -> Prefix
    requires { len ≤ 32 }
    ensures { result ≡ cut_at prefix len }
{
    let rest = 32 - len;
    let bits = (u64::from(prefix.bits()) >> rest) << rest;
    Prefix::new(bits as u32, len)
}

// What every pattern keeps.
fn known_pattern(pattern: Pattern)
    ensures { IsPattern pattern }
{
    let _len = pattern.base().len();
    let _upto = pattern.upto();
}

impl PatternTable {
    /// A table without patterns.
    pub fn new(alloc: Global) -> PatternTable
        ensures { Holds result [] }
    {
        PatternTable {
            ends: IndexMap::new(alloc),
        }
    }

    // One more than the greatest length that a pattern with this very base contains; 0 where there is none.
    fn end_at(&self, base: Prefix) -> u8
        ensures { result ≡ unwrap_or (get same_prefix self.now.ends base) 0 }
    {
        self.ends.get(&base).copied().unwrap_or(0)
    }

    // The same of the patterns whose base is around the prefix.
    fn end_around(&self, prefix: Prefix) -> u8
        ensures { (qs : Items PlainPattern) → Holds self.now qs → result ≡ depth_at qs prefix }
    {
        let mut most = self.end_at(cut(prefix, 0));
        for k in 0..prefix.len() {
            most = most.max(self.end_at(cut(prefix, k + 1)));
        }
        most
    }

    // Whether the prefixes inside this one that are at most `more` longer are in the patterns, where `around` is one more than
    // the greatest length that a pattern whose base is around it contains.
    fn covers_below(&self, prefix: Prefix, more: u8, around: u8) -> bool
        requires { prefix.len + more ≤ 32 }
        ensures { (qs : Items PlainPattern) → Holds self.now qs → around ≡ depth_at qs prefix → result ≡ covered_below qs prefix more }
    {
        if around <= prefix.len() {
            return false;
        }
        if prefix.len() + more < around {
            return true;
        }
        let lower = low(prefix);
        let upper = high(prefix);
        self.covers_below(lower, more - 1, around.max(self.end_at(lower)))
            && self.covers_below(upper, more - 1, around.max(self.end_at(upper)))
    }

    /// Whether every prefix that the pattern contains is in one of the patterns.
    pub fn covers(&self, pattern: Pattern) -> bool
        ensures { (qs : Items PlainPattern) → Holds self.now qs → IsTrue result ↔ IsCovered qs pattern }
    {
        let base = pattern.base();
        self.covers_below(base, pattern.upto() - base.len(), self.end_around(base))
    }

    /// Puts a pattern in.
    pub fn note(&mut self, pattern: Pattern) -> Result<(), NoMemory>
        ensures { (qs : Items PlainPattern) → Holds self.old qs → OnOk result (Holds self.new (qs ++ pattern ∷ [])) }
    {
        known_pattern(pattern);
        let base = pattern.base();
        let most = self.end_at(base).max(pattern.upto() + 1);
        self.ends.insert(base, most)?;
        Ok(())
    }

    // Whether the pattern is covered too, where those before it are.
    fn covers_too(&self, are_covered: bool, pattern: Pattern) -> bool
        ensures { (qs ps all : Items PlainPattern) → all ≡ qs ++ ps → Holds self.now all → (IsTrue are_covered ↔ AreCovered qs ps)
            → IsTrue result ↔ AreCovered qs (ps ++ pattern ∷ []) }
    {
        are_covered && self.covers(pattern)
    }

    /// Puts patterns in; whether each was covered by those that the table held before. What was covered changes no cover, so
    /// the next one is asked of the table as it stands, and none after the first that isn't covered.
    pub fn take_in(&mut self, patterns: &[Pattern]) -> Result<bool, NoMemory>
        ensures held { (qs : Items PlainPattern) → Holds self.old qs → OnOk result (Holds self.new (qs ++ patterns.now)) }
        ensures covered { (qs : Items PlainPattern) → Holds self.old qs → IfOk result (λ are_covered. IsTrue are_covered ↔ AreCovered qs patterns.now) }
    {
        let mut are_covered = true;
        for pattern in patterns {
            are_covered = self.covers_too(are_covered, *pattern);
            self.note(*pattern)?;
        }
        Ok(are_covered)
    }
}
