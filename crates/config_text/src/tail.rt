//! Lines that are written from their end to their front, as the digits of a number are.
ghost use Rattle.std.specs.Prelude.{◌≡◌, ◌+◌, ◌≤◌, [], ◌++◌, codes, length, IsTrue};
ghost use Rattle.std.specs.Fmt.{decimal};
ghost use Rattle.net_base.specs.NameRule.{is_name};
ghost use Rattle.config_lines.specs.Editions.{tag_text};
ghost use Rattle.config_lines.specs.declared.edition.Edition.TheVariants.{Second};
ghost use Rattle.config_text.specs.declared.tail.TheConstants.{MOST_BYTES};

use itoa::write_digits;
use net_base::{Name, Tag};
use std::marker::Model;

/// As many bytes as a tail may have: an import line of the largest numbers has 90.
pub(crate) const MOST_BYTES: usize = 96;

// As many bytes as the front of a tag may have: 13, with as many before them as make a copy of it two moves.
const FRONT_BYTES: usize = 16;

/// How tags with an AS number begin: the number and `:0:`, written once for all tags of a block.
#[derive(Drop)]
pub(crate) struct Front {
    asn: u32,
    bytes: [u8; FRONT_BYTES],
    start: usize,
}

impl Model for Front {
    ghost use Rattle.std.specs.Prelude.{◌≡◌, ◌≤◌, ◌++◌, ℕ, codes, drop};
    ghost use Rattle.std.specs.Fmt.{decimal};

    ghost Value = { ℕ };

    ghost view = { λ f. f.asn };

    ghost invariant = { λ f. (f.start ≤ 13) × (drop f.start f.bytes ≡ decimal f.asn ++ codes ":0:") };
}

impl Front {
    /// The front of tags with this AS number.
    pub(crate) fn of(asn: u32) -> Front
        ensures { result ≡ asn }
    {
        let mut bytes = *b"             :0:";
        let start = write_digits(u64::from(asn), &mut bytes, 13);
        Front { asn, bytes, start }
    }
}

/// The tail of a line, which is written at once when its front is there. It takes no memory.
#[derive(Drop)]
pub(crate) struct Tail {
    bytes: [u8; MOST_BYTES],
    start: usize,
}

impl Model for Tail {
    ghost use Rattle.std.specs.Prelude.{◌≤◌, ℕ, List, drop};
    ghost use Rattle.config_text.specs.declared.tail.TheConstants.{MOST_BYTES};

    ghost Value = { List ℕ };

    ghost view = { λ t. drop t.start t.bytes };

    ghost invariant = { λ t. t.start ≤ MOST_BYTES };
}

impl Tail {
    /// A tail of nothing.
    pub(crate) fn new() -> Tail
        ensures { result ≡ [] }
    {
        Tail {
            bytes: [0; MOST_BYTES],
            start: MOST_BYTES,
        }
    }

    /// The bytes that are written.
    pub(crate) fn as_slice(&self) -> &[u8]
        ensures { result.now ≡ self.now }
    {
        &self.bytes[self.start..]
    }

    /// Puts a word before the tail.
    #[inline(always)]
    pub(crate) fn put(&mut self, word: &[u8])
        requires { length word.now + length self.old ≤ MOST_BYTES }
        ensures text { self.new ≡ word.now ++ self.old }
        ensures len { length self.new ≡ length word.now + length self.old }
    {
        let start = self.start - word.len();
        self.bytes[start..self.start].copy_from_slice(word);
        self.start = start;
    }

    /// Puts a name before the tail. It keeps the rule of names.
    pub(crate) fn put_name(&mut self, name: &Name)
        requires { 32 + length self.old ≤ MOST_BYTES }
        ensures text { self.new ≡ name.now ++ self.old }
        ensures len { length self.new ≤ 32 + length self.old }
        ensures rule { IsTrue (is_name name.now) }
    {
        self.put(name.as_bytes());
    }

    /// Puts a number before the tail, in decimal, without leading zeros.
    pub(crate) fn put_number(&mut self, number: u32)
        requires { 10 + length self.old ≤ MOST_BYTES }
        ensures text { self.new ≡ decimal number ++ self.old }
        ensures len { length self.new ≤ 10 + length self.old }
    {
        self.start = write_digits(u64::from(number), &mut self.bytes, self.start);
    }

    // Puts the front of a tag before the tail. All bytes of its array are copied, since their number is known.
    fn put_front(&mut self, front: &Front)
        requires { 16 + length self.old ≤ MOST_BYTES }
        ensures text { self.new ≡ decimal front.now ++ codes ":0:" ++ self.old }
        ensures len { length self.new ≤ 16 + length self.old }
    {
        let start = self.start - FRONT_BYTES;
        self.bytes[start..self.start].copy_from_slice(&front.bytes);
        self.start = start + front.start;
    }

    /// Puts a tag before the tail: its AS number, `:0:` and its value, as large communities are written (RFC 8092). Where the
    /// front is that of its number, it's taken as it is.
    pub(crate) fn put_tag(&mut self, tag: Tag, front: &Front)
        requires { 26 + length self.old ≤ MOST_BYTES }
        ensures text { self.new ≡ tag_text Second tag ++ self.old }
        ensures len { length self.new ≤ 26 + length self.old }
    {
        self.put_number(tag.value);
        if front.asn == tag.asn {
            return self.put_front(front);
        }
        self.put(b":0:");
        self.put_number(tag.asn);
    }
}
