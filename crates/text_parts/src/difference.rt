//! Where two texts differ first.
ghost use Rattle.std.specs.Prelude.{◌≡◌};
ghost use Rattle.text_parts.specs.Difference.{first_difference as first_apart};

/// The first line, from 1, at which two texts differ; the one behind the shorter text where that is a front of the other.
pub fn first_difference(one: &[u8], other: &[u8]) -> u64
    ensures { result ≡ first_apart one.now other.now }
{
    let mut line = 1;
    for place in 0..one.len().min(other.len()) {
        if one[place] != other[place] {
            return line;
        }
        if one[place] == b'\n' {
            line += 1;
        }
    }
    line
}
