//! Why the graph of a case is not built.
ghost use Rattle.std.specs.Prelude.{◌≡◌};
ghost use Rattle.case_core.specs.BuildFaults.{fault_of};
ghost use Rattle.case_core.specs.declared.build_fault.BuildFault.TheVariants.{NoMemory as no_memory};

use input_output::NoMemory;
use thiserror::Error;
use walk_states::StandingsFault;

/// Why the graph of a case is not built.
#[derive(Clone, Copy, Debug, PartialEq, Eq, Error)]
pub enum BuildFault {
    /// More than 4,096 nodes are reached.
    #[error("more than 4096 nodes")]
    TooManyStates,
    /// There are more steps than there is room for.
    #[error("too many steps")]
    TooManySteps,
    /// Memory was refused.
    #[error("out of memory")]
    NoMemory,
}

impl From<StandingsFault> for BuildFault {
    ghost from_gives = { λ fault e. e ≡ fault_of fault };

    fn from(fault: StandingsFault) -> BuildFault {
        match fault {
            StandingsFault::TooMany => BuildFault::TooManyStates,
            StandingsFault::NoMemory => BuildFault::NoMemory,
        }
    }
}

impl From<NoMemory> for BuildFault {
    ghost from_gives = { λ _ e. e ≡ no_memory };

    fn from(_: NoMemory) -> BuildFault {
        BuildFault::NoMemory
    }
}
