//! Why a policy is refused for the limits alone.
ghost use Rattle.std.specs.Prelude.{◌≡◌};
ghost use Rattle.case_core.specs.Refusals.{IsPastLimit};
ghost use Rattle.case_graphs.specs.Limits.{compile_refusal as refusal_of};
ghost use Rattle.case_graphs.specs.declared.refusal.LimitRefusal.TheVariants.{NoMemory as no_memory};

use case_core::CompileRefusal;
use input_output::NoMemory;
use std::alloc::AllocError;
use thiserror::Error;

/// Which limit the first case passes that passes one. The first field is the number of the case, from 1. A case is judged in
/// the order of these variants, and its sources are not judged.
#[derive(Clone, Copy, Debug, PartialEq, Eq, Error)]
pub enum LimitRefusal {
    /// The statement has more than 64 alternatives: this many, or 18,446,744,073,709,551,615 where there
    /// are more.
    #[error("case {0}: {1} alternatives")]
    TooManyRanks(u32, u64),
    /// More than 4,096 nodes are reached.
    #[error("case {0}: more than 4096 nodes")]
    TooManyStates(u32),
    /// There are more steps than the earlier cases leave room for.
    #[error("case {0}: too many steps")]
    TooManySteps(u32),
    /// Memory was refused.
    #[error("out of memory")]
    NoMemory,
}

impl From<NoMemory> for LimitRefusal {
    ghost from_gives = { λ _ e. e ≡ no_memory };

    fn from(_: NoMemory) -> LimitRefusal {
        LimitRefusal::NoMemory
    }
}

impl From<AllocError> for LimitRefusal {
    ghost from_gives = { λ _ e. e ≡ no_memory };

    fn from(_: AllocError) -> LimitRefusal {
        LimitRefusal::NoMemory
    }
}

/// The refusal as one of the compiler.
pub fn compile_refusal(refusal: LimitRefusal) -> CompileRefusal
    ensures { result ≡ refusal_of refusal }
{
    match refusal {
        LimitRefusal::TooManyRanks(case, count) => CompileRefusal::TooManyRanks(case, count),
        LimitRefusal::TooManyStates(case) => CompileRefusal::TooManyStates(case),
        LimitRefusal::TooManySteps(case) => CompileRefusal::TooManySteps(case),
        LimitRefusal::NoMemory => CompileRefusal::NoMemory,
    }
}

/// The refusal of the compiler, which is for a limit.
pub(crate) fn limit_refusal(refusal: &CompileRefusal) -> LimitRefusal
    requires { IsPastLimit refusal.now }
    ensures { refusal_of result ≡ refusal.now }
{
    match refusal {
        CompileRefusal::TooManyRanks(case, count) => LimitRefusal::TooManyRanks(*case, *count),
        CompileRefusal::TooManyStates(case) => LimitRefusal::TooManyStates(*case),
        CompileRefusal::TooManySteps(case) => LimitRefusal::TooManySteps(*case),
        CompileRefusal::NoMemory => LimitRefusal::NoMemory,
        _ => unreachable!(),
    }
}
