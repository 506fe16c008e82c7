//! Whether every prefix of a pattern is in one of several patterns.
ghost use Rattle.std.specs.Prelude.{◌≡◌, ◌↔◌, IsTrue, ◌≤◌, ◌-◌, ◌+◌, suc, max, if◌then◌else◌};
ghost use Rattle.net_base.specs.Prefixes.{is_inside};
ghost use Rattle.lint_cover.specs.Covered.{IsCovered, covered, covered_below, depth_at, low_half, high_half};

use net_base::{Pattern, Prefix};

// Whether the prefix is inside the base of the pattern.
fn is_around(pattern: Pattern, prefix: Prefix) -> bool
    ensures { result ≡ is_inside pattern.base prefix }
{
    let base = pattern.base();
    let cut = 32 - base.len();
    base.len() <= prefix.len() && u64::from(prefix.bits()) >> cut == u64::from(base.bits()) >> cut
}

// One more than the length to which the pattern contains the prefixes inside this one.
fn depth_in(pattern: Pattern, prefix: Prefix) -> u8
    ensures { result ≡ (if is_inside pattern.base prefix then suc pattern.upto else 0) }
{
    if is_around(pattern, prefix) {
        pattern.upto() + 1
    } else {
        0
    }
}

// Prefixes inside this one that are of a length below this are in the patterns whose base is around it.
fn depth(patterns: &[Pattern], prefix: Prefix) -> u8
    ensures { result ≡ depth_at patterns.now prefix }
{
    let mut most = 0;
    for pattern in patterns {
        most = most.max(depth_in(*pattern, prefix));
    }
    most
}

/// The half of the prefix whose next bit is 0.
pub(crate) fn low(prefix: Prefix) -> Prefix
    requires { prefix.len + 1 ≤ 32 }
    ensures { result ≡ low_half prefix }
{
    Prefix::new(prefix.bits(), prefix.len() + 1)
}

/// The half of the prefix whose next bit is 1.
pub(crate) fn high(prefix: Prefix) -> Prefix
    requires { prefix.len + 1 ≤ 32 }
    ensures { result ≡ high_half prefix }
{
    let len = prefix.len();
    Prefix::new(prefix.bits() + (1 << (31 - len)), len + 1)
}

// Whether the prefixes inside this one that are at most `more` longer are in the patterns.
fn is_covered_below(patterns: &[Pattern], prefix: Prefix, more: u8) -> bool
    requires { prefix.len + more ≤ 32 }
    ensures { result ≡ covered_below patterns.now prefix more }
{
    let depth = depth(patterns, prefix);
    if depth <= prefix.len() {
        return false;
    }
    if prefix.len() + more < depth {
        return true;
    }
    is_covered_below(patterns, low(prefix), more - 1)
        && is_covered_below(patterns, high(prefix), more - 1)
}

/// Whether every prefix that the pattern contains is in one of the patterns.
pub fn covered_by(patterns: &[Pattern], pattern: Pattern) -> bool
    ensures means { IsTrue result ↔ IsCovered patterns.now pattern }
    ensures exact { result ≡ covered patterns.now pattern }
{
    let base = pattern.base();
    is_covered_below(patterns, base, pattern.upto() - base.len())
}
