//! Why the standings of a case are not gathered.
ghost use Rattle.std.specs.Prelude.{◌≡◌};
ghost use Rattle.walk_states.specs.declared.fault.StandingsFault.TheVariants.{NoMemory as no_memory};

use input_output::NoMemory;
use std::alloc::AllocFailed;
use thiserror::Error;

/// Why the standings of a case are not gathered.
#[derive(Clone, Copy, Debug, PartialEq, Eq, Error)]
pub enum StandingsFault {
    /// Walks reach more than 4,096 standings.
    #[error("more than 4096 nodes")]
    TooMany,
    /// Memory was refused.
    #[error("out of memory")]
    NoMemory,
}

impl From<NoMemory> for StandingsFault {
    ghost from_gives = { λ _ e. e ≡ no_memory };

    fn from(_: NoMemory) -> StandingsFault {
        StandingsFault::NoMemory
    }
}

impl<T: Drop> From<AllocFailed<T>> for StandingsFault {
    ghost from_gives = { λ _ e. e ≡ no_memory };

    fn from(_: AllocFailed<T>) -> StandingsFault {
        StandingsFault::NoMemory
    }
}
