//! A text is cut at a sign, part by part, without memory.
ghost use Rattle.std.specs.Prelude.{◌≡◌, ◌≤◌, ◌==◌, ◌∷◌, length, option_map};
ghost use Rattle.std.specs.List.{slice_split, position_or_len};
ghost use Rattle.net_base.specs.Addresses.{cut_at};
ghost use Rattle.config_lines.specs.Parts.{parts_left};

// How many bytes stand before the first that is the sign: all of them where none is.
fn length_before(sign: u8, bytes: &[u8]) -> usize
    ensures place { result ≡ position_or_len (λ b. b == sign) bytes.now }
    ensures within { result ≤ length bytes.now }
{
    let mut i = 0;
    while i < bytes.len() {
        if bytes[i] == sign {
            return i;
        }
        i += 1;
    }
    i
}

/// What stands before and after the first byte that is the sign, None where none is.
pub fn halves(sign: u8, bytes: &[u8]) -> Option<(&[u8], &[u8])>
    ensures { option_map (λ h. (h.0.now, h.1.now)) result ≡ cut_at sign bytes.now }
{
    let i = length_before(sign, bytes);
    if i == bytes.len() {
        return None;
    }
    Some((&bytes[..i], &bytes[i + 1..]))
}

/// The first of the parts before, between and behind the bytes that are the sign, and what stands behind that sign,
/// None where the part is the last one.
pub fn first_part(sign: u8, bytes: &[u8]) -> (&[u8], Option<&[u8]>)
    ensures { slice_split (λ b. b == sign) bytes.now ≡ result.0.now ∷ parts_left sign (option_map (λ r. r.now) result.1) }
{
    match halves(sign, bytes) {
        Some((part, rest)) => (part, Some(rest)),
        None => (bytes, None),
    }
}
