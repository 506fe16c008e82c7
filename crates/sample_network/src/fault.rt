//! Why there is no sample.
use input_output::NoMemory;
use thiserror::Error;

/// Why there is no sample of a number.
#[derive(Clone, Copy, Debug, PartialEq, Eq, Error)]
pub enum SampleFault {
    /// The number of leaves isn't from 2 to 96.
    #[error("not from 2 to 96")]
    Range,
    /// Memory was refused.
    #[error("out of memory")]
    NoMemory,
}

impl From<NoMemory> for SampleFault {
    ghost use Rattle.std.specs.Prelude.{◌≡◌};
    ghost use Rattle.sample_network.specs.declared.fault.SampleFault.TheVariants as fault;

    ghost from_gives = { λ _ e. e ≡ fault.NoMemory };

    fn from(_: NoMemory) -> SampleFault {
        SampleFault::NoMemory
    }
}
