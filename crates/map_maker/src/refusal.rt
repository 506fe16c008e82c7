//! Why a configuration has no maps.
use std::alloc::{AllocError, AllocFailed};

/// Why a configuration has no maps.
#[derive(Clone, Copy, Debug, PartialEq, Eq)]
pub enum MapsRefusal {
    /// The text of its maps would have more than 1,000,000 lines: this many, kept at 18446744073709551615 where there
    /// are more.
    TooManyLines(u64),
    /// There was not enough memory.
    NoMemory,
}

impl From<AllocError> for MapsRefusal {
    ghost use Rattle.std.specs.Prelude.{◌≡◌};
    ghost use Rattle.map_maker.specs.declared.refusal.MapsRefusal.TheVariants.{NoMemory};

    ghost from_gives = { λ _ e. e ≡ NoMemory };

    fn from(_e: AllocError) -> MapsRefusal {
        MapsRefusal::NoMemory
    }
}

impl<T: Drop> From<AllocFailed<T>> for MapsRefusal {
    ghost use Rattle.std.specs.Prelude.{◌≡◌};
    ghost use Rattle.map_maker.specs.declared.refusal.MapsRefusal.TheVariants.{NoMemory};

    ghost from_gives = { λ _ e. e ≡ NoMemory };

    fn from(_e: AllocFailed<T>) -> MapsRefusal {
        MapsRefusal::NoMemory
    }
}
