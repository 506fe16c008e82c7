//! Where bytes come from.
ghost use Rattle.std.specs.Prelude.{◌≡◌, ℕ, ◌≤◌, ◌<◌, List, length, Option, IfOk, IfSome, IsErrOf, ◌↔◌};
ghost use Rattle.input_output.specs.Outside.{Rose};

use std::alloc::{AllocError, Global};
use thiserror::Error;

/// Why a name was not read.
#[derive(Clone, Copy, Debug, PartialEq, Eq, Error)]
pub enum InputFail {
    /// The reading failed.
    #[error("the reading failed")]
    Failed,
    /// The name holds more bytes than were asked for.
    #[error("the name holds too many bytes")]
    TooLong,
    /// Memory was refused.
    #[error("out of memory")]
    NoMemory,
}

impl From<AllocError> for InputFail {
    ghost use Rattle.input_output.specs.declared.inputs.InputFail.TheVariants.{NoMemory};

    ghost from_gives = { λ _ e. e ≡ NoMemory };

    fn from(_: AllocError) -> InputFail {
        InputFail::NoMemory
    }
}

/// Named inputs.
pub trait Inputs {
    /// What a name holds, where that is told.
    ghost holds: { Self → List ℕ → Option (List ℕ) };

    /// How often the reading of a name has failed. A count stays at `u64::MAX`.
    ghost faults: { Self → List ℕ → ℕ };

    /// How often a reading has failed, whatever the name. This count stays at `u64::MAX`, too.
    ghost all_faults: { Self → ℕ };

    /// Where it is known that the reading of a name doesn't fail, in this call or a later one. Of what isn't known to
    /// be sure, nothing is said.
    ghost sure: { Self → List ℕ → Type 0 } = { λ _ _. ⊥ };

    /// All the bytes of a name, where there are at most `most`.
    ///
    /// `Failed` comes exactly where the reading failed, which raises the count of this name and that of all readings by
    /// one. `TooLong` comes only where the name holds more than `most` bytes, as far as that is told.
    fn read(&mut self, alloc: Global, name: &str, most: u64) -> Result<Vec<u8>, InputFail>
        ensures bytes { IfOk result (λ v. IfSome (holds self.old name.now) (λ told. v.items ≡ told)) }
        ensures within { IfOk result (λ v. length v.items ≤ most) }
        ensures too_long { IsErrOf result InputFail.TooLong → IfSome (holds self.old name.now) (λ told. most < length told) }
        ensures failed { IsErrOf result InputFail.Failed → Rose (faults self.old name.now) (faults self.new name.now) }
        ensures once { IsErrOf result InputFail.Failed → Rose (all_faults self.old) (all_faults self.new) }

        // A call that doesn't fail raises no count.
        ensures calm { ¬ IsErrOf result InputFail.Failed → all_faults self.new ≡ all_faults self.old }
        ensures kept { ¬ IsErrOf result InputFail.Failed → (n : List ℕ) → faults self.new n ≡ faults self.old n }

        // No read changes what a name holds, and no count falls.
        ensures holds { (n : List ℕ) → holds self.new n ≡ holds self.old n }
        ensures counts { (n : List ℕ) → faults self.old n ≤ faults self.new n }

        // A name that is sure stays so, and its count stays where it is.
        ensures sure { (n : List ℕ) → sure self.old n → (faults self.new n ≡ faults self.old n) × sure self.new n };
}

/// A copy of the bytes of a name, where there are at most `most`.
pub(crate) fn copied(alloc: Global, bytes: &[u8], most: u64) -> Result<Vec<u8>, InputFail>
    ensures bytes { IfOk result (λ v. v.items ≡ bytes.now) }
    ensures within { IfOk result (λ v. length v.items ≤ most) }
    ensures too_long { IsErrOf result InputFail.TooLong ↔ most < length bytes.now }
    ensures room { IsErrOf result InputFail.NoMemory → length bytes.now ≤ most }
    ensures sure { ¬ IsErrOf result InputFail.Failed }
{
    if bytes.len() as u64 > most {
        return Err(InputFail::TooLong);
    }
    Ok(bytes.to_vec(alloc)?)
}
