//! Addresses and prefixes as texts.
ghost use Rattle.std.specs.Prelude.{◌≡◌, ◌<◌, ◌≤◌, ◌∷◌, [], ◌==◌, length, IsTrue, option_map};
ghost use Rattle.std.specs.List.{position_or_len};
ghost use Rattle.net_base.specs.Addresses.{cut_at, small_number, number_and_rest, quad_of, are_octets, bits_of, address_of};
ghost use Rattle.net_base.specs.Quads.{quad};
ghost use Rattle.net_base.specs.PrefixText.{prefix_spelled, length_number};

use crate::prefix::Prefix;

/// Why bytes are no prefix: the first rule that fails.
#[derive(Clone, Copy, Debug, PartialEq, Eq)]
pub enum PrefixFault {
    /// The bytes are not four decimal numbers of at most three digits without leading zeros, joined by
    /// dots, then `/` and a number of at most two digits without a leading zero.
    Shape,
    /// One of the four numbers is over 255.
    Octet,
    /// The length is over 32.
    Length,
    /// A bit past the length is set.
    HostBits,
}

// How many bytes stand before the first of this byte: all of them where none is.
fn length_before(sign: u8, bytes: &[u8]) -> usize
    ensures place { result ≡ position_or_len (λ b. b == sign) bytes.now }
    ensures within { result ≤ length bytes.now }
{
    let mut i = 0;
    while i < bytes.len() {
        if bytes[i] == sign {
            return i;
        }
        i += 1;
    }
    i
}

// What stands before and after the first of this byte.
fn halves(sign: u8, bytes: &[u8]) -> Option<(&[u8], &[u8])>
    ensures { option_map (λ h. (h.0.now, h.1.now)) result ≡ cut_at sign bytes.now }
{
    let i = length_before(sign, bytes);
    if i == bytes.len() {
        return None;
    }
    Some((&bytes[..i], &bytes[i + 1..]))
}

// The value of a decimal digit.
fn figure(byte: u8) -> Option<u16>
    ensures { result ≡ small_number (byte ∷ []) }
{
    if byte.is_ascii_digit() {
        Some(u16::from(byte - b'0'))
    } else {
        None
    }
}

// A decimal number of one to three digits, without a leading zero.
fn number(digits: &[u8]) -> Option<u16>
    ensures { result ≡ small_number digits.now }
{
    match digits {
        [a] => figure(*a),
        [b'1'..=b'9', b'0'..=b'9'] => Some(
            10 * u16::from(digits[0] - b'0') + u16::from(digits[1] - b'0'),
        ),
        [b'1'..=b'9', b'0'..=b'9', b'0'..=b'9'] => Some(
            100 * u16::from(digits[0] - b'0')
                + 10 * u16::from(digits[1] - b'0')
                + u16::from(digits[2] - b'0'),
        ),
        _ => None,
    }
}

/// Four numbers joined by dots, each below 1000.
#[derive(Clone, Copy)]
pub(crate) struct Dotted {
    first: u16,
    second: u16,
    third: u16,
    fourth: u16,
}

// A number, and what stands after the dot that follows it.
fn number_before_dot(bytes: &[u8]) -> Option<(u16, &[u8])>
    ensures { option_map (λ n. (n.0, n.1.now)) result ≡ number_and_rest bytes.now }
{
    let (digits, rest) = halves(b'.', bytes)?;
    let value = number(digits)?;
    Some((value, rest))
}

// Four numbers joined by dots.
#[tactic(auto, unfolding(crate::specs::Addresses::quad_of))]
fn four_numbers(bytes: &[u8]) -> Option<Dotted>
    ensures { option_map quad result ≡ quad_of bytes.now }
{
    let (first, rest) = number_before_dot(bytes)?;
    let (second, rest) = number_before_dot(rest)?;
    let (third, rest) = number_before_dot(rest)?;
    let fourth = number(rest)?;
    Some(Dotted {
        first,
        second,
        third,
        fourth,
    })
}

impl Dotted {
    // Whether each of the four fits a byte.
    fn are_octets(&self) -> bool
        ensures { result ≡ are_octets (quad self.now) }
    {
        self.first <= 255 && self.second <= 255 && self.third <= 255 && self.fourth <= 255
    }

    // The number of 32 bits that four bytes make.
    fn bits(&self) -> u32
        requires { IsTrue (are_octets (quad self.now)) }
        ensures { result ≡ bits_of (quad self.now) }
    {
        let high = u32::from(self.first) * 16_777_216 + u32::from(self.second) * 65_536;
        high + u32::from(self.third) * 256 + u32::from(self.fourth)
    }
}

/// The address that the bytes spell: four decimal numbers from 0 to 255 without leading zeros, joined by
/// dots. None exactly where they spell none.
#[tactic(auto, unfolding(crate::specs::Addresses::address_of))]
pub fn read_address(bytes: &[u8]) -> Option<u32>
    ensures { result ≡ address_of bytes.now }
{
    let address = four_numbers(bytes)?;
    if !address.are_octets() {
        return None;
    }
    Some(address.bits())
}

/// A prefix length as it is written: a number of at most two digits without a leading zero.
pub fn read_length(bytes: &[u8]) -> Option<u16>
    ensures { result ≡ length_number bytes.now }
{
    if bytes.len() > 2 {
        return None;
    }
    number(bytes)
}

/// The prefix that the bytes spell, or the first rule that they break. It takes no memory.
#[tactic(auto, unfolding(crate::specs::PrefixText::prefix_spelled))]
pub fn read_prefix(bytes: &[u8]) -> Result<Prefix, PrefixFault>
    ensures { result ≡ prefix_spelled bytes.now }
{
    let Some((address, length)) = halves(b'/', bytes) else {
        return Err(PrefixFault::Shape);
    };
    let Some(address) = four_numbers(address) else {
        return Err(PrefixFault::Shape);
    };
    let Some(len) = read_length(length) else {
        return Err(PrefixFault::Shape);
    };
    if !address.are_octets() {
        return Err(PrefixFault::Octet);
    }
    if len > 32 {
        return Err(PrefixFault::Length);
    }
    let bits = address.bits();
    if u64::from(bits) % (1u64 << (32 - len)) != 0 {
        return Err(PrefixFault::HostBits);
    }
    Ok(Prefix::new(bits, len as u8))
}
