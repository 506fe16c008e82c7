//! How much a policy may have.
ghost use Rattle.std.specs.Prelude.{◌≡◌};
ghost use Rattle.policy_rules.specs.Counts.{within as within_limit};

use policy_tokens::{Kind, PolicyFault};

/// Tests that there are at most so many of a kind.
pub fn within(kind: Kind, most: u64, number: u64) -> Result<(), PolicyFault>
    ensures { result ≡ within_limit kind most number }
{
    if number > most {
        return Err(PolicyFault::TooMany(kind, number));
    }
    Ok(())
}
