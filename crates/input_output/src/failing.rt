//! Calls that are to fail, by their numbers.
ghost use Rattle.std.specs.Prelude.{◌≡◌, OnOk, OnErr, IsTrue, ◌↔◌};
ghost use Rattle.input_output.specs.Calls.{fresh, after_call, with_failing, NextFails};

use crate::counter::raised;
use crate::no_memory::NoMemory;
use std::alloc::Global;
use std::marker::Model;

/// The calls of an object: how many were made, and the numbers of those that are to fail.
#[derive(Drop)]
pub struct Calls {
    made: u64,
    failing: Vec<u64>,
}

impl Model for Calls {
    ghost use Rattle.input_output.specs.Calls.{Plan};

    ghost Value = { Plan };

    ghost view = { λ c. record { made = c.made; failing = c.failing.items } };
}

impl Calls {
    /// Calls of which none was made, and none is to fail.
    pub(crate) fn new(alloc: Global) -> Calls
        ensures { result ≡ fresh }
    {
        Calls {
            made: 0,
            failing: Vec::new(alloc),
        }
    }

    /// Counts one more call, and says whether it is to fail.
    pub(crate) fn next_fails(&mut self) -> bool
        ensures made { self.new ≡ after_call self.old }
        ensures fails { IsTrue result ↔ NextFails self.old }
    {
        self.made = raised(self.made);
        self.failing.contains(&self.made)
    }

    /// The call of this number is to fail too.
    pub(crate) fn fail(&mut self, call: u64) -> Result<(), NoMemory>
        ensures listed { OnOk result (self.new ≡ with_failing self.old call) }
        ensures err { OnErr result (self.new ≡ self.old) }
    {
        self.failing.push(call)?;
        Ok(())
    }
}
