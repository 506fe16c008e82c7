//! The prefixes that a network originates, and what is inside them.
ghost use Rattle.std.specs.Prelude.{◌≡◌, IfOk};
ghost use Rattle.own_space.specs.Spaces.{
  all_in as all_inside,
  holds_own as holds_its_own,
  is_around as is_shorter_around,
  is_outer as is_outer_of,
  is_within as is_within_some,
  outer_of as outermost,
  part_in as part_inside,
};

use input_output::NoMemory;
use net_base::{Pattern, Prefix};
use policy_base::Origin;
use std::alloc::Global;

// All that is inside a prefix.
fn all_in(prefix: Prefix) -> Pattern
    ensures { result ≡ all_inside prefix }
{
    let _len = prefix.len();
    Pattern::new(prefix, 32)
}

// Whether a prefix is inside one that holds space of its own. The default route holds none.
fn holds_own(outer: Prefix, prefix: Prefix) -> bool
    ensures { result ≡ holds_its_own outer prefix }
{
    outer.len() > 0 && all_in(outer).contains(prefix)
}

// Whether a prefix is inside a shorter one.
fn is_around(outer: Prefix, prefix: Prefix) -> bool
    ensures { result ≡ is_shorter_around outer prefix }
{
    holds_own(outer, prefix) && outer.len() < prefix.len()
}

// Whether an originated prefix is inside a shorter one.
fn is_within(origins: &[Origin], origin: &Origin) -> bool
    ensures { result ≡ is_within_some origins.now origin.now }
{
    for other in origins {
        if is_around(other.prefix, origin.prefix) {
            return true;
        }
    }
    false
}

// Whether an originated prefix holds space and is inside no shorter one.
fn is_outer(origins: &[Origin], origin: &Origin) -> bool
    ensures { result ≡ is_outer_of origins.now origin.now }
{
    origin.prefix.len() > 0 && !is_within(origins, origin)
}

/// The originated prefixes that hold space and are inside no shorter one.
pub fn outer_of(alloc: Global, origins: &[Origin]) -> Result<Vec<Origin>, NoMemory>
    ensures { IfOk result (λ outer. outer.items ≡ outermost origins.now) }
{
    let mut outer = Vec::new(alloc);
    for origin in origins {
        if is_outer(origins, origin) {
            outer.push(*origin)?;
        }
    }
    Ok(outer)
}

/// The prefixes of a pattern that are inside a prefix, as one pattern, where there are any.
pub fn part_in(prefix: Prefix, pattern: Pattern) -> Option<Pattern>
    ensures { result ≡ part_inside prefix pattern }
{
    if all_in(prefix).contains(pattern.base()) {
        Some(pattern)
    } else if pattern.contains(prefix) {
        Some(Pattern::new(prefix, pattern.upto()))
    } else {
        None
    }
}
