//! Inputs in memory that never fail.
ghost use Rattle.std.specs.Prelude.{◌≡◌, ◌≢◌, Some, OnOk, OnErr, IfOk, IsErrOf, ◌≤◌, ◌<◌, List, [], ℕ, length, ◌↔◌};

use crate::inputs::{InputFail, Inputs, copied};
use crate::no_memory::NoMemory;
use std::alloc::Global;
use std::collections::BTreeMap;

/// Inputs in memory that never fail. A name that isn't held reads as no bytes.
#[derive(Drop)]
pub struct SureInputs {
    alloc: Global,
    held: BTreeMap<String, Vec<u8>>,
}

impl SureInputs {
    ghost use Rattle.input_output.specs.SureInputs.{bytes_of};

    /// Inputs that hold no name. Takes no memory, and keeps `alloc` for its later growth.
    pub fn new(alloc: Global) -> SureInputs
        ensures { (n : List ℕ) → bytes_of result n ≡ [] }
    {
        SureInputs {
            alloc,
            held: BTreeMap::new(alloc),
        }
    }

    /// From now on the name holds exactly these bytes.
    pub fn hold(&mut self, name: &str, bytes: &[u8]) -> Result<(), NoMemory>
        ensures bytes { OnOk result (bytes_of self.new name.now ≡ bytes.now) }
        ensures others { (n : List ℕ) → n ≢ name.now → bytes_of self.new n ≡ bytes_of self.old n }
        ensures err { OnErr result ((n : List ℕ) → bytes_of self.new n ≡ bytes_of self.old n) }
    {
        let bytes = bytes.to_vec(self.alloc)?;
        let key = String::from_str(self.alloc, name)?;
        self.held.insert(key, bytes)?;
        Ok(())
    }
}

impl Inputs for SureInputs {
    ghost use Rattle.input_output.specs.SureInputs.{bytes_of};

    ghost holds = { λ s name. Some (bytes_of s name) };

    ghost faults = { λ _ _. 0 };

    ghost all_faults = { λ _. 0 };

    ghost sure = { λ _ _. Unit {0} };

    fn read(&mut self, alloc: Global, name: &str, most: u64) -> Result<Vec<u8>, InputFail>
        ensures bytes { IfOk result (λ v. v.items ≡ bytes_of self.old name.now) }
        ensures within { IfOk result (λ v. length v.items ≤ most) }
        ensures too_long { IsErrOf result InputFail.TooLong ↔ most < length (bytes_of self.old name.now) }
        ensures failed { ¬ IsErrOf result InputFail.Failed }
        ensures same { self.new ≡ self.old }
    {
        match self.held.get(name) {
            Some(bytes) => copied(alloc, bytes, most),
            None => Ok(Vec::new(alloc)),
        }
    }
}
