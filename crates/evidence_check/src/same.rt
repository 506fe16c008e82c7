//! Whether two cases are the same.
ghost use Rattle.std.specs.Prelude.{◌≡◌, ◌↔◌, IsTrue};

use net_base::Prefix;
use policy_base::Case;

// Whether two lists have the same prefixes in the same order.
fn are_same_prefixes(one: &[Prefix], other: &[Prefix]) -> bool
    ensures { IsTrue result ↔ one.now ≡ other.now }
{
    one == other
}

/// Whether two cases are the same.
pub fn is_same_case(one: &Case, other: &Case) -> bool
    ensures { IsTrue result ↔ one.now ≡ other.now }
{
    if one.statement != other.statement {
        return false;
    }
    if one.origins != other.origins {
        return false;
    }
    if one.external != other.external {
        return false;
    }
    are_same_prefixes(one.prefixes.as_slice(), other.prefixes.as_slice())
}
