//! A sink in memory, some of whose calls fail.
ghost use Rattle.std.specs.Prelude.{◌≡◌, Some, OnOk, OnErr, IfOk, IsErr, ◌≤◌, ◌<◌, [], length, take, ◌↔◌};
ghost use Rattle.input_output.specs.Outside.{Rose, Grew};
ghost use Rattle.input_output.specs.Calls.{fresh};
ghost use Rattle.input_output.specs.MemSink.{share, with_failing_write, after_taking, after_fault, WriteFails};

use crate::counter::raised;
use crate::failing::Calls;
use crate::no_memory::NoMemory;
use crate::sink::{Failed, Sink};
use std::alloc::Global;
use std::marker::Model;

/// A sink in memory. Its room is reserved when it is made, each call takes at most `most` bytes, and the calls that
/// are listed fail, as every call does once the room is full.
#[derive(Drop)]
pub struct MemSink {
    bytes: Vec<u8>,
    room: usize,
    most: usize,
    calls: Calls,
    faults: u64,
}

impl Model for MemSink {
    ghost use Rattle.std.specs.Prelude.{◌≤◌, vec_len, vec_capacity};
    ghost use Rattle.input_output.specs.MemSink.{Taking};

    ghost Value = { Taking };

    ghost view = { λ s. record { bytes = s.bytes.items; room = s.room; most = s.most; writes = s.calls; faults = s.faults } };

    ghost invariant = { λ s. (s.room ≤ vec_capacity s.bytes) × (vec_len s.bytes ≤ s.room) × (1 ≤ s.most) };
}

impl MemSink {
    /// A sink with nothing in it yet, no call of which is listed to fail, for at most `room` bytes, of which a call
    /// takes at most `most`.
    pub fn new(alloc: Global, room: usize, most: usize) -> Result<MemSink, NoMemory>
        requires { 1 ≤ most }
        ensures { IfOk result (λ s. s ≡ record { bytes = []; room = room; most = most; writes = fresh; faults = 0 }) }
    {
        Ok(MemSink {
            bytes: Vec::with_capacity(alloc, room)?,
            room,
            most,
            calls: Calls::new(alloc),
            faults: 0,
        })
    }

    /// The call of `write` of this number is listed to fail too. Calls are numbered from 1 since this sink was made,
    /// and the number stays at `u64::MAX` once it is there.
    pub fn fail(&mut self, call: u64) -> Result<(), NoMemory>
        ensures listed { OnOk result (self.new ≡ with_failing_write self.old call) }
        ensures err { OnErr result (self.new ≡ self.old) }
    {
        self.calls.fail(call)
    }

    /// The bytes taken so far.
    pub fn taken(&self) -> &[u8]
        ensures { result.now ≡ self.now.bytes }
    {
        &self.bytes
    }
}

impl Sink for MemSink {
    ghost taken = { λ s. Some s.bytes };

    ghost faults = { λ s. s.faults };

    fn write(&mut self, bytes: &[u8]) -> Result<usize, Failed>
        ensures within { IfOk result (λ n. n ≤ length bytes.now) }
        ensures some { IfOk result (λ n. 0 < length bytes.now → 0 < n) }
        ensures taken { IfOk result (λ n. Grew (Some self.old.bytes) (Some self.new.bytes) (take n bytes.now)) }
        ensures nothing { OnErr result (Some self.new.bytes ≡ Some self.old.bytes) }
        ensures failed { OnErr result (Rose self.old.faults self.new.faults) }
        ensures calm { OnOk result (self.new.faults ≡ self.old.faults) }
        ensures counts { self.old.faults ≤ self.new.faults }

        // Besides: which calls fail, how much the others take, and that all else stays.
        ensures fails { IsErr result ↔ WriteFails self.old }
        ensures amount { IfOk result (λ n. n ≡ share self.old (length bytes.now)) }
        ensures ok { IfOk result (λ n. self.new ≡ after_taking self.old (take n bytes.now)) }
        ensures err { OnErr result (self.new ≡ after_fault self.old) }
    {
        let left = self.room - self.bytes.len();
        if self.calls.next_fails() || left == 0 {
            self.faults = raised(self.faults);
            return Err(Failed);
        }
        let n = bytes.len().min(self.most).min(left);
        // The room is reserved, so nothing is allocated here.
        match self.bytes.extend_from_slice(&bytes[..n]) {
            Ok(()) => Ok(n),
            Err(_) => Err(Failed),
        }
    }
}
