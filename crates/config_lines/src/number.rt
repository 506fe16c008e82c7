//! The numbers of a line, first as they stand and then in their ranges.
ghost use Rattle.std.specs.Prelude.{◌≡◌, ◌^◌, nat_lt, Ok, Err, Some, None, if◌then◌else◌};
ghost use Rattle.std.specs.List.{list_all};
ghost use Rattle.net_base.specs.Addresses.{is_figure as figure};
ghost use Rattle.config_lines.specs.Numbers.{value_of, is_padded as padded, number_of, in_range as ranged, class_in, class_number as numbered, tag_in_range};

use crate::edition::Edition;
use crate::line::LineFault;
use net_base::Tag;

// The least number that doesn't have 32 bits.
const TOO_LARGE: u64 = 1 << 32;

/// A number as it stands in a line.
#[derive(Clone, Copy, Debug, PartialEq, Eq)]
pub enum Figure {
    /// It has a leading zero.
    LeadingZero,
    /// It is over 4294967295.
    Large,
    /// Any other number.
    Value(u32),
}

/// The numbers of a tag as they stand in a line.
#[derive(Clone, Copy, Debug, PartialEq, Eq)]
pub struct RawTag {
    /// The AS number of the tag's router.
    pub asn: Figure,
    /// What stands between the others: 0 in the first edition, where nothing does.
    pub middle: Figure,
    /// The number of the tag among those of its router.
    pub value: Figure,
}

/// The tag and the preference that an import gives, with their numbers as they stand.
#[derive(Clone, Copy, Debug, PartialEq, Eq)]
pub struct Setting {
    /// The tag that routes get.
    pub set: RawTag,
    /// The local preference that they get (RFC 4271, 5.1.5).
    pub pref: Figure,
}

fn is_figure(byte: u8) -> bool
    ensures { result ≡ figure byte }
{
    byte.is_ascii_digit()
}

// Whether the digits are more than one, of which the first is 0.
fn is_padded(digits: &[u8]) -> bool
    ensures { result ≡ padded digits.now }
{
    digits.len() >= 2 && digits[0] == b'0'
}

// The number that digits make, None where it is over 4294967295. A byte that is no digit is not of the form.
fn value(bytes: &[u8]) -> Result<Option<u32>, LineFault>
    ensures { result ≡ (if list_all figure bytes.now then Ok (if nat_lt (value_of bytes.now) (2 ^ 32) then Some (value_of bytes.now) else None) else Err LineFault.Form) }
{
    let mut value: u64 = 0;
    for byte in bytes {
        if !is_figure(*byte) {
            return Err(LineFault::Form);
        }
        value = (10 * value + u64::from(byte.saturating_sub(b'0'))).min(TOO_LARGE);
    }
    if value == TOO_LARGE {
        return Ok(None);
    }
    Ok(Some(value as u32))
}

/// The number that a word is, as it stands. A word that isn't one or more digits is not of its form.
#[tactic(auto, unfolding(crate::specs::Numbers::number_of))]
pub fn read_number(word: &[u8]) -> Result<Figure, LineFault>
    ensures { result ≡ number_of word.now }
{
    if word.is_empty() {
        return Err(LineFault::Form);
    }
    let value = value(word)?;
    if is_padded(word) {
        return Ok(Figure::LeadingZero);
    }
    match value {
        Some(n) => Ok(Figure::Value(n)),
        None => Ok(Figure::Large),
    }
}

/// The number, which has no leading zero and at most 32 bits.
pub fn in_range(number: Figure) -> Result<u32, LineFault>
    ensures { result ≡ ranged number }
{
    match number {
        Figure::Value(n) => Ok(n),
        Figure::LeadingZero | Figure::Large => Err(LineFault::Number),
    }
}

/// The number of a class, of which there are so many.
#[tactic(auto, unfolding(crate::specs::Numbers::class_in))]
pub fn read_class(classes: u32, number: Figure) -> Result<u32, LineFault>
    ensures { result ≡ class_in classes number }
{
    let n = in_range(number)?;
    if n == 0 || n > classes {
        return Err(LineFault::Number);
    }
    Ok(n)
}

/// The number of a `class` line, which has no range: None where it is over 4294967295.
pub fn class_number(number: Figure) -> Result<Option<u32>, LineFault>
    ensures { result ≡ numbered number }
{
    match number {
        Figure::LeadingZero => Err(LineFault::Number),
        Figure::Large => Ok(None),
        Figure::Value(n) => Ok(Some(n)),
    }
}

/// The tag of its numbers, which are in their ranges, that of the middle one being 0 alone.
#[tactic(auto, unfolding(crate::specs::Numbers::tag_in_range))]
pub fn fitting_tag(edition: Edition, raw: RawTag) -> Result<Tag, LineFault>
    ensures { result ≡ tag_in_range edition raw }
{
    let asn = in_range(raw.asn)?;
    let middle = in_range(raw.middle)?;
    let value = in_range(raw.value)?;
    let tag = Tag { asn, value };
    if middle != 0 || !edition.tag_fits(tag) {
        return Err(LineFault::Number);
    }
    Ok(tag)
}
