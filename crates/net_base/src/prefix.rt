//! IPv4 prefixes and patterns of them.
ghost use Rattle.std.specs.Prelude.{◌≡◌, ◌≤◌, ◌<◌};
ghost use Rattle.net_base.specs.Prefixes.{PlainPrefix, PlainPattern, IsPrefix, contains, only};

use std::marker::Model;

/// An IPv4 prefix: a length from 0 to 32, and no bit set past it.
#[derive(Clone, Copy, Debug, PartialEq, Eq, PartialOrd, Ord, Hash)]
pub struct Prefix {
    bits: u32,
    len: u8,
}

impl Model for Prefix {
    ghost use Rattle.net_base.specs.Prefixes.{PlainPrefix, IsPrefix};

    ghost Value = { PlainPrefix };

    ghost view = { λ p. record { bits = p.bits; len = p.len } };

    ghost invariant = { λ p. IsPrefix (record { bits = p.bits; len = p.len }) };

    ghost inverse = { λ p. record { bits = p.bits; len = p.len } };
}

impl Prefix {
    /// The prefix of these bits and this length.
    pub fn new(bits: u32, len: u8) -> Prefix
        requires { IsPrefix (record { bits = bits; len = len }) }
        ensures { result ≡ record { bits = bits; len = len } }
    {
        Prefix { bits, len }
    }

    /// The bits, those past the length 0.
    pub fn bits(self) -> u32
        ensures bits { result ≡ self.bits }
        ensures rules { IsPrefix self }
    {
        self.bits
    }

    /// The length, from 0 to 32.
    pub fn len(self) -> u8
        ensures len { result ≡ self.len }
        ensures rules { IsPrefix self }
    {
        self.len
    }
}

/// The prefixes inside `base` whose length is from that of `base` to `upto`, which is at most 32.
#[derive(Clone, Copy, Debug, PartialEq, Eq, PartialOrd, Ord, Hash)]
pub struct Pattern {
    base: Prefix,
    upto: u8,
}

impl Model for Pattern {
    ghost use Rattle.std.specs.Prelude.{◌≤◌};
    ghost use Rattle.net_base.specs.Prefixes.{PlainPattern};

    ghost Value = { PlainPattern };

    ghost view = { λ p. record { base = p.base; upto = p.upto } };

    ghost invariant = { λ p. (p.base.len ≤ p.upto) × (p.upto ≤ 32) };

    ghost inverse = { λ p. record { base = p.base; upto = p.upto } };
}

impl Pattern {
    /// The pattern of this base, up to this length.
    pub fn new(base: Prefix, upto: u8) -> Pattern
        requires least { base.len ≤ upto }
        requires most { upto ≤ 32 }
        ensures { result ≡ record { base = base; upto = upto } }
    {
        Pattern { base, upto }
    }

    /// The pattern that contains one prefix alone.
    pub fn only(prefix: Prefix) -> Pattern
        ensures { result ≡ only prefix }
    {
        let upto = prefix.len();
        Pattern::new(prefix, upto)
    }

    /// The base.
    pub fn base(self) -> Prefix
        ensures base { result ≡ self.base }
    {
        self.base
    }

    /// The greatest length that the pattern contains.
    pub fn upto(self) -> u8
        ensures upto { result ≡ self.upto }
        ensures least { self.base.len ≤ result }
        ensures most { result ≤ 32 }
    {
        self.upto
    }

    /// Whether the pattern contains the prefix.
    pub fn contains(self, prefix: Prefix) -> bool
        ensures { result ≡ contains self prefix }
    {
        let base = self.base;
        let cut = 32 - base.len;
        base.len <= prefix.len
            && u64::from(prefix.bits) >> cut == u64::from(base.bits) >> cut
            && prefix.len <= self.upto
    }
}
