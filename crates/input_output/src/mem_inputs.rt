//! Inputs in memory, some of whose calls fail.
ghost use Rattle.std.specs.Prelude.{◌≡◌, ◌≢◌, None, Some, OnOk, OnErr, IfOk, IfSome, IsErrOf, ◌≤◌, ◌<◌, List, ℕ, length, ◌↔◌, ◌⊎◌};

use crate::counter::raised;
use crate::failing::Calls;
use crate::inputs::{InputFail, Inputs, copied};
use crate::no_memory::NoMemory;
use std::alloc::Global;
use std::collections::BTreeMap;

/// What a name holds, and how often its reading has failed.
#[derive(Drop)]
pub struct Held {
    bytes: Vec<u8>,
    faults: u64,
}

/// Inputs in memory, of which the calls that are listed fail, and those for a name that isn't held.
///
/// Each held name has a counter of its own, the names that aren't held share one, and there is one for all names. Each
/// failure raises the counter of its name, and that for all.
#[derive(Drop)]
pub struct MemInputs {
    alloc: Global,
    held: BTreeMap<String, Held>,
    shared: u64,
    faults: u64,
    calls: Calls,
}

impl MemInputs {
    ghost use Rattle.input_output.specs.Outside.{next};
    ghost use Rattle.input_output.specs.Calls.{fresh, with_failing};
    ghost use Rattle.input_output.specs.MemInputs.{told, count, all_count, reads, HaveOneCounter};

    /// Inputs that hold no name, no call of which is listed to fail. Takes no memory, and keeps `alloc` for its
    /// later growth.
    pub fn new(alloc: Global) -> MemInputs
        ensures holds { (n : List ℕ) → told result n ≡ None }
        ensures counts { (n : List ℕ) → count result n ≡ 0 }
        ensures all { all_count result ≡ 0 }
        ensures calls { reads result ≡ fresh }
    {
        MemInputs {
            alloc,
            held: BTreeMap::new(alloc),
            shared: 0,
            faults: 0,
            calls: Calls::new(alloc),
        }
    }

    /// From now on the name holds exactly these bytes. A name that was held keeps its counter, and a new one begins
    /// with the value of the shared counter.
    pub fn hold(&mut self, name: &str, bytes: &[u8]) -> Result<(), NoMemory>
        ensures bytes { OnOk result (told self.new name.now ≡ Some bytes.now) }
        ensures others { OnOk result ((n : List ℕ) → n ≢ name.now → told self.new n ≡ told self.old n) }
        ensures err { OnErr result ((n : List ℕ) → told self.new n ≡ told self.old n) }
        ensures counts { (n : List ℕ) → count self.new n ≡ count self.old n }
        ensures all { all_count self.new ≡ all_count self.old }
        ensures calls { reads self.new ≡ reads self.old }
    {
        let bytes = bytes.to_vec(self.alloc)?;
        let key = String::from_str(self.alloc, name)?;
        let faults = self.faults_of(name);
        self.held.insert(key, Held { bytes, faults })?;
        Ok(())
    }

    /// The call of `read` of this number is listed to fail too. Calls are numbered from 1 since these inputs were
    /// made, and the number stays at `u64::MAX` once it is there.
    pub fn fail(&mut self, call: u64) -> Result<(), NoMemory>
        ensures listed { OnOk result (reads self.new ≡ with_failing (reads self.old) call) }
        ensures err { OnErr result (reads self.new ≡ reads self.old) }
        ensures holds { (n : List ℕ) → told self.new n ≡ told self.old n }
        ensures counts { (n : List ℕ) → count self.new n ≡ count self.old n }
        ensures all { all_count self.new ≡ all_count self.old }
    {
        self.calls.fail(call)
    }

    // How often the reading of a name has failed.
    fn faults_of(&self, name: &str) -> u64
        ensures { result ≡ count self.now name.now }
    {
        match self.held.get(name) {
            Some(held) => held.faults,
            None => self.shared,
        }
    }

    // Raises the counter of a name, and that for all.
    fn count_fault(&mut self, name: &str)
        ensures holds { (n : List ℕ) → told self.new n ≡ told self.old n }
        ensures raised { (n : List ℕ) → HaveOneCounter self.old n name.now → count self.new n ≡ next (count self.old n) }
        ensures others { (n : List ℕ) → ¬ HaveOneCounter self.old n name.now → count self.new n ≡ count self.old n }
        ensures no_less { (n : List ℕ) → count self.old n ≤ count self.new n }
        ensures all { all_count self.new ≡ next (all_count self.old) }
        ensures calls { reads self.new ≡ reads self.old }
    {
        self.faults = raised(self.faults);
        match self.held.get_mut(name) {
            Some(held) => held.faults = raised(held.faults),
            None => self.shared = raised(self.shared),
        }
    }
}

impl Inputs for MemInputs {
    ghost use Rattle.input_output.specs.Outside.{Rose, next};
    ghost use Rattle.input_output.specs.Calls.{after_call, NextFails};
    ghost use Rattle.input_output.specs.MemInputs.{told, count, all_count, reads, HaveOneCounter, IsSure};

    ghost holds = { λ m name. told m name };

    ghost faults = { λ m name. count m name };

    ghost all_faults = { λ m. all_count m };

    ghost sure = { λ m name. IsSure m name };

    fn read(&mut self, alloc: Global, name: &str, most: u64) -> Result<Vec<u8>, InputFail>
        ensures bytes { IfOk result (λ v. IfSome (told self.old name.now) (λ told. v.items ≡ told)) }
        ensures within { IfOk result (λ v. length v.items ≤ most) }
        ensures too_long { IsErrOf result InputFail.TooLong → IfSome (told self.old name.now) (λ told. most < length told) }
        ensures failed { IsErrOf result InputFail.Failed → Rose (count self.old name.now) (count self.new name.now) }
        ensures once { IsErrOf result InputFail.Failed → Rose (all_count self.old) (all_count self.new) }
        ensures calm { ¬ IsErrOf result InputFail.Failed → all_count self.new ≡ all_count self.old }
        ensures kept { ¬ IsErrOf result InputFail.Failed → (n : List ℕ) → count self.new n ≡ count self.old n }
        ensures holds { (n : List ℕ) → told self.new n ≡ told self.old n }
        ensures counts { (n : List ℕ) → count self.old n ≤ count self.new n }
        ensures sure { (n : List ℕ) → IsSure self.old n → (count self.new n ≡ count self.old n) × IsSure self.new n }

        // Besides: which calls fail, that a name that holds too much is told to, and which counters are raised.
        ensures calls { reads self.new ≡ after_call (reads self.old) }
        ensures fails { IsErrOf result InputFail.Failed ↔ (NextFails (reads self.old) ⊎ (told self.old name.now ≡ None)) }
        ensures room { IsErrOf result InputFail.NoMemory → IfSome (told self.old name.now) (λ told. length told ≤ most) }
        ensures raised { IsErrOf result InputFail.Failed → (n : List ℕ) → HaveOneCounter self.old n name.now → count self.new n ≡ next (count self.old n) }
        ensures others { (n : List ℕ) → ¬ HaveOneCounter self.old n name.now → count self.new n ≡ count self.old n }
    {
        if self.calls.next_fails() {
            self.count_fault(name);
            return Err(InputFail::Failed);
        }
        match self.held.get(name) {
            Some(held) => copied(alloc, &held.bytes, most),
            None => {
                self.count_fault(name);
                Err(InputFail::Failed)
            }
        }
    }
}
