//! Why evidence isn't renewed.
ghost use Rattle.std.specs.Prelude.{◌≡◌};
ghost use Rattle.evidence_renewal.specs.declared.fault.RenewalFault.TheVariants.{NoMemory as no_memory};

use input_output::NoMemory;
use std::alloc::AllocError;
use thiserror::Error;

/// Why evidence isn't renewed.
#[derive(Clone, Copy, Debug, PartialEq, Eq, Error)]
pub enum RenewalFault {
    /// Raised by the greatest preference of the old configuration, which is this, a preference would pass 4,294,967,295.
    #[error("above {0} there are too few preferences")]
    PrefsRunOut(u32),
    /// Memory was refused.
    #[error("out of memory")]
    NoMemory,
}

impl From<NoMemory> for RenewalFault {
    ghost from_gives = { λ _ e. e ≡ no_memory };

    fn from(_: NoMemory) -> RenewalFault {
        RenewalFault::NoMemory
    }
}

impl From<AllocError> for RenewalFault {
    ghost from_gives = { λ _ e. e ≡ no_memory };

    fn from(_: AllocError) -> RenewalFault {
        RenewalFault::NoMemory
    }
}
