//! Why two policies are not compared.
ghost use Rattle.std.specs.Prelude.{◌≡◌};
ghost use Rattle.comparison_maker.specs.declared.refusal.ComparisonRefusal.TheVariants.{NoMemory as no_memory};

use case_graphs::LimitRefusal;
use input_output::NoMemory;
use std::alloc::AllocError;
use thiserror::Error;

/// Which limit is passed first: by a case of the old policy, by a case of the new one, or by the graphs of their pairs. Neither policy is
/// judged for more: whether it compiles isn't asked.
#[derive(Clone, Copy, Debug, PartialEq, Eq, Error)]
pub enum ComparisonRefusal {
    /// A case of the old policy passes a limit.
    #[error("old policy: {0}")]
    Old(LimitRefusal),
    /// A case of the new policy passes a limit.
    #[error("new policy: {0}")]
    New(LimitRefusal),
    /// With this pair the graphs of pairs have more than 1,048,576 steps together. The fields are the numbers of its statements in the old
    /// policy and in the new one, from 1, or None where none governs.
    #[error("too many steps in pairs of cases")]
    TooManySteps(Option<u32>, Option<u32>),
    /// Memory was refused.
    #[error("out of memory")]
    NoMemory,
}

impl From<NoMemory> for ComparisonRefusal {
    ghost from_gives = { λ _ e. e ≡ no_memory };

    fn from(_: NoMemory) -> ComparisonRefusal {
        ComparisonRefusal::NoMemory
    }
}

impl From<AllocError> for ComparisonRefusal {
    ghost from_gives = { λ _ e. e ≡ no_memory };

    fn from(_: AllocError) -> ComparisonRefusal {
        ComparisonRefusal::NoMemory
    }
}
