//! Why nothing may take over with what stays.
ghost use Rattle.std.specs.Prelude.{◌≡◌};
ghost use Rattle.evidence_reuse.specs.declared.fault.ReuseFault.TheVariants.{NoMemory as no_memory};
ghost use Rattle.evidence_reuse.specs.Reused.{of_renewal};

use evidence_renewal::RenewalFault;
use input_output::NoMemory;
use std::alloc::AllocError;
use thiserror::Error;

/// Why nothing may take over with what stays.
#[derive(Clone, Copy, Debug, PartialEq, Eq, Error)]
pub enum ReuseFault {
    /// Raised by the greatest preference of the old configuration, which is this, a preference would pass 4,294,967,295.
    #[error("above {0} there are too few preferences")]
    PrefsRunOut(u32),
    /// With what stays by the evidence, nothing can take over. It is known of evidence of other configurations; that the old configuration's own
    /// evidence never comes to this isn't proved.
    #[error("with what stays by this evidence nothing can take over")]
    OtherEvidence,
    /// Memory was refused.
    #[error("out of memory")]
    NoMemory,
}

impl From<NoMemory> for ReuseFault {
    ghost from_gives = { λ _ e. e ≡ no_memory };

    fn from(_: NoMemory) -> ReuseFault {
        ReuseFault::NoMemory
    }
}

impl From<AllocError> for ReuseFault {
    ghost from_gives = { λ _ e. e ≡ no_memory };

    fn from(_: AllocError) -> ReuseFault {
        ReuseFault::NoMemory
    }
}

impl From<RenewalFault> for ReuseFault {
    ghost from_gives = { λ f e. e ≡ of_renewal f };

    fn from(fault: RenewalFault) -> ReuseFault {
        match fault {
            RenewalFault::PrefsRunOut(top) => ReuseFault::PrefsRunOut(top),
            RenewalFault::NoMemory => ReuseFault::NoMemory,
        }
    }
}
