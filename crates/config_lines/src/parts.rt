//! What a word of a line is.
ghost use Rattle.std.specs.Prelude.{◌≡◌};
ghost use Rattle.std.specs.Str.{bytes_eq};
ghost use Rattle.net_base.specs.Addresses.{address_of};
ghost use Rattle.net_base.specs.PrefixText.{prefix_spelled};
ghost use Rattle.config_lines.specs.Words.{is_word as fixed_word, name_of, identifier_of, as_prefix, pair_of, triple_of, tag_of};

use crate::cut::halves;
use crate::edition::Edition;
use crate::line::LineFault;
use crate::number::{Figure, RawTag, read_number};
use net_base::{Name, Prefix, read_address, read_prefix};

/// Whether the word is this one.
pub fn is_word(fixed: &str, word: &[u8]) -> bool
    ensures { result ≡ bytes_eq word.now fixed.now }
{
    word == fixed.as_bytes()
}

/// The word has to be this one.
pub fn expect(fixed: &str, word: &[u8]) -> Result<(), LineFault>
    ensures { result ≡ fixed_word fixed.now word.now }
{
    if !is_word(fixed, word) {
        return Err(LineFault::Form);
    }
    Ok(())
}

/// The name that a word is.
#[tactic(auto, unfolding(crate::specs::Words::name_of))]
pub fn read_name(word: &[u8]) -> Result<Name, LineFault>
    ensures { result ≡ name_of word.now }
{
    match Name::of(word) {
        Some(name) => Ok(name),
        None => Err(LineFault::Form),
    }
}

/// The BGP identifier that a word is: an address other than 0.0.0.0 (RFC 6286).
pub fn read_identifier(word: &[u8]) -> Result<u32, LineFault>
    ensures { result ≡ identifier_of (address_of word.now) }
{
    match read_address(word) {
        None | Some(0) => Err(LineFault::Form),
        Some(id) => Ok(id),
    }
}

/// The prefix that a word is.
pub fn prefix(word: &[u8]) -> Result<Prefix, LineFault>
    ensures { result ≡ as_prefix (prefix_spelled word.now) }
{
    match read_prefix(word) {
        Ok(prefix) => Ok(prefix),
        Err(_) => Err(LineFault::Form),
    }
}

// Two numbers joined by a colon.
#[tactic(auto, unfolding(crate::specs::Words::pair_of))]
fn read_pair(word: &[u8]) -> Result<RawTag, LineFault>
    ensures { result ≡ pair_of word.now }
{
    let Some((asn, value)) = halves(b':', word) else {
        return Err(LineFault::Form);
    };
    Ok(RawTag {
        asn: read_number(asn)?,
        middle: Figure::Value(0),
        value: read_number(value)?,
    })
}

// Three numbers joined by colons.
#[tactic(auto, unfolding(crate::specs::Words::triple_of))]
fn read_triple(word: &[u8]) -> Result<RawTag, LineFault>
    ensures { result ≡ triple_of word.now }
{
    let Some((asn, rest)) = halves(b':', word) else {
        return Err(LineFault::Form);
    };
    let Some((middle, value)) = halves(b':', rest) else {
        return Err(LineFault::Form);
    };
    Ok(RawTag {
        asn: read_number(asn)?,
        middle: read_number(middle)?,
        value: read_number(value)?,
    })
}

/// The tag that a word is, with its numbers as they stand: an AS number, `:` and a value (RFC 1997), in the second
/// edition with another number and `:` between them (RFC 8092).
pub fn read_tag(edition: Edition, word: &[u8]) -> Result<RawTag, LineFault>
    ensures { result ≡ tag_of edition word.now }
{
    match edition {
        Edition::First => read_pair(word),
        Edition::Second => read_triple(word),
    }
}
