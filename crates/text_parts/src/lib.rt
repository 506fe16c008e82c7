//! What texts are made of, whatever their kind: how numbers, addresses, prefixes and places are written, how the faults of
//! a kind of text are reported (`TextFault`), and the first line at which two texts differ.
//!
//! Each `push_` function adds a part to the end of a text. `specs/Texts` says the bytes of each part. Each part is read
//! again (`prefixes_are_read_again`), and is cut off a text in one way only (`texts_are_cut_one_way`). With that the crates
//! above prove that a text is that of one value.
//!
//! Faults of all texts are reported in one way: a number, a word and values. The fault type of a text says what the text
//! breaks, as a Rust enum. Its number, word and values are the methods of the trait beside it, and `specs/Telling` says
//! what a kind of fault has to tell. So the line of a fault is written and proved once, for every kind. `thiserror` isn't
//! used here: its text is that of `Display`, and a contract names the bytes of a line. The kind of text is no part of the
//! fault, since one fault type can serve two kinds of text.
//!
//! Of several broken rules the one with the least number is told. Want of memory has the number 0: it is no fault of the
//! text.
//!
//! `first_difference` compares two texts byte by byte and counts lines, for `check`, `audit` and `checkmap`.
//!
//! It knows nothing of where the parts stand, and of what the texts say.
#![tactic(auto)]

mod difference;
pub mod laws;
mod text_fault;

ghost use Rattle.std.specs.Prelude.{◌≡◌, ◌++◌, ◌<◌, IsTrue, OnOk};
ghost use Rattle.std.specs.Fmt.{decimal};
ghost use Rattle.net_base.specs.NameRule.{is_name};
ghost use Rattle.net_base.specs.Prefixes.{IsPrefix, IsPattern};
ghost use Rattle.text_parts.specs.Texts.{address_text, prefix_text, pattern_text, word_text, place_text, at_place};

pub use difference::first_difference;
use input_output::NoMemory;
use net_base::{Name, Pattern, Place, Prefix};
pub use text_fault::TextFault;

/// Adds bytes.
pub fn push_bytes(text: &mut Vec<u8>, bytes: &[u8]) -> Result<(), NoMemory>
    ensures { OnOk result (text.new.items ≡ text.old.items ++ bytes.now) }
{
    text.extend_from_slice(bytes)?;
    Ok(())
}

/// Adds a name, which keeps the rule of names.
pub fn push_name(text: &mut Vec<u8>, name: &Name) -> Result<(), NoMemory>
    ensures text { OnOk result (text.new.items ≡ text.old.items ++ name.now) }
    ensures rules { IsTrue (is_name name.now) }
{
    push_bytes(text, name.as_bytes())
}

/// Adds a number in decimal, without leading zeros.
pub fn push_number(text: &mut Vec<u8>, number: u64) -> Result<(), NoMemory>
    ensures { OnOk result (text.new.items ≡ text.old.items ++ decimal number) }
{
    let mut buffer = itoa::Buffer::new();
    push_bytes(text, buffer.format(number).as_bytes())
}

/// Adds an address of 32 bits as four decimal numbers joined by dots.
pub fn push_address(text: &mut Vec<u8>, bits: u32) -> Result<(), NoMemory>
    ensures { OnOk result (text.new.items ≡ text.old.items ++ address_text bits) }
{
    push_number(text, u64::from(bits / 16_777_216))?;
    push_bytes(text, b".")?;
    push_number(text, u64::from(bits / 65_536 % 256))?;
    push_bytes(text, b".")?;
    push_number(text, u64::from(bits / 256 % 256))?;
    push_bytes(text, b".")?;
    push_number(text, u64::from(bits % 256))
}

/// Adds a prefix: its address, `/` and its length. It keeps the rules of prefixes.
pub fn push_prefix(text: &mut Vec<u8>, prefix: Prefix) -> Result<(), NoMemory>
    ensures text { OnOk result (text.new.items ≡ text.old.items ++ prefix_text prefix) }
    ensures rules { IsPrefix prefix }
{
    push_address(text, prefix.bits())?;
    push_bytes(text, b"/")?;
    push_number(text, u64::from(prefix.len()))
}

/// Adds a pattern: its base, and where it contains more than that prefix ` le ` and the greatest length. It keeps
/// the rules of patterns.
pub fn push_pattern(text: &mut Vec<u8>, pattern: Pattern) -> Result<(), NoMemory>
    ensures text { OnOk result (text.new.items ≡ text.old.items ++ pattern_text pattern) }
    ensures rules { OnOk result (IsPattern pattern) }
{
    push_prefix(text, pattern.base())?;
    if pattern.upto() == pattern.base().len() {
        return Ok(());
    }
    push_bytes(text, b" le ")?;
    push_number(text, u64::from(pattern.upto()))
}

/// Adds a word after a space.
pub fn push_word(text: &mut Vec<u8>, word: &[u8]) -> Result<(), NoMemory>
    ensures { OnOk result (text.new.items ≡ text.old.items ++ word_text word.now) }
{
    push_bytes(text, b" ")?;
    push_bytes(text, word)
}

/// Adds a place in an array: ` place ` and its number.
pub fn push_place(text: &mut Vec<u8>, place: u32) -> Result<(), NoMemory>
    ensures { OnOk result (text.new.items ≡ text.old.items ++ place_text place) }
{
    push_bytes(text, b" place ")?;
    push_number(text, u64::from(place))
}

/// Adds a place in a text: ` at `, its line, `:` and its column.
pub fn push_at(text: &mut Vec<u8>, place: Place) -> Result<(), NoMemory>
    ensures { OnOk result (text.new.items ≡ text.old.items ++ at_place place) }
{
    push_bytes(text, b" at ")?;
    push_number(text, u64::from(place.line))?;
    push_bytes(text, b":")?;
    push_number(text, u64::from(place.column))
}
