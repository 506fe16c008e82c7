//! Why a ranked expression is not expanded.
ghost use Rattle.std.specs.Prelude.{◌≡◌};
ghost use Rattle.constraint_expand.specs.declared.fault.ExpandFault.TheVariants.{NoMemory};

use std::alloc::AllocError;
use thiserror::Error;

/// Why a ranked expression is not expanded.
#[derive(Clone, Copy, Debug, PartialEq, Eq, Error)]
pub enum ExpandFault {
    /// There are more than 64 alternatives: this many, or 18,446,744,073,709,551,615 where there are more.
    #[error("{0} alternatives")]
    TooManyRanks(u64),
    /// Memory was refused.
    #[error("out of memory")]
    NoMemory,
}

impl From<AllocError> for ExpandFault {
    ghost from_gives = { λ _ e. e ≡ NoMemory };

    fn from(_: AllocError) -> ExpandFault {
        ExpandFault::NoMemory
    }
}
