//! Why a graph of pairs is not made.
ghost use Rattle.std.specs.Prelude.{◌≡◌};
ghost use Rattle.pair_graph.specs.declared.fault.PairFault.TheVariants.{NoMemory as no_memory};

use input_output::NoMemory;
use std::alloc::{AllocError, AllocFailed};
use thiserror::Error;

/// Why a graph of pairs is not made.
#[derive(Clone, Copy, Debug, PartialEq, Eq, Error)]
pub enum PairFault {
    /// There are more steps than there is room for.
    #[error("too many steps")]
    TooManySteps,
    /// Memory was refused.
    #[error("out of memory")]
    NoMemory,
}

impl From<NoMemory> for PairFault {
    ghost from_gives = { λ _ e. e ≡ no_memory };

    fn from(_: NoMemory) -> PairFault {
        PairFault::NoMemory
    }
}

impl From<AllocError> for PairFault {
    ghost from_gives = { λ _ e. e ≡ no_memory };

    fn from(_: AllocError) -> PairFault {
        PairFault::NoMemory
    }
}

impl<T: Drop> From<AllocFailed<T>> for PairFault {
    ghost from_gives = { λ _ e. e ≡ no_memory };

    fn from(_: AllocFailed<T>) -> PairFault {
        PairFault::NoMemory
    }
}
