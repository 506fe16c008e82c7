//! Where bytes go.
ghost use Rattle.std.specs.Prelude.{◌≡◌, ◌≢◌, [], ℕ, ◌≤◌, ◌<◌, List, length, take, Option, OnOk, OnErr, IfOk};
ghost use Rattle.input_output.specs.Outside.{Rose, Grew, GrewByPart};

use thiserror::Error;

/// A call of a sink failed.
#[derive(Clone, Copy, Debug, PartialEq, Eq, Error)]
#[error("a write failed")]
pub struct Failed;

/// Not all bytes could be written.
#[derive(Clone, Copy, Debug, PartialEq, Eq, Error)]
#[error("not all could be written")]
pub struct WriteFault;

/// A taker of bytes.
pub trait Sink {
    /// The bytes taken so far, where they are told.
    ghost taken: { Self → Option (List ℕ) };

    /// How often a write has failed. The count stays at `u64::MAX`.
    ghost faults: { Self → ℕ };

    /// Takes some bytes from the front, and says how many: of a piece that isn't empty at least one.
    ///
    /// `Failed` comes exactly where the write failed, which raises the count by one, and then nothing was taken.
    fn write(&mut self, bytes: &[u8]) -> Result<usize, Failed>
        ensures within { IfOk result (λ n. n ≤ length bytes.now) }
        ensures some { IfOk result (λ n. 0 < length bytes.now → 0 < n) }
        ensures taken { IfOk result (λ n. Grew (taken self.old) (taken self.new) (take n bytes.now)) }
        ensures nothing { OnErr result (taken self.new ≡ taken self.old) }
        ensures failed { OnErr result (Rose (faults self.old) (faults self.new)) }
        ensures calm { OnOk result (faults self.new ≡ faults self.old) }
        ensures counts { faults self.old ≤ faults self.new };
}

/// Writes all the bytes. The first write that fails ends it, and then the sink has taken a front of them. Takes no memory.
pub fn write_whole<S: Sink>(sink: &mut S, bytes: &[u8]) -> Result<(), WriteFault>
    ensures whole { OnOk result (Grew (S.taken sink.old) (S.taken sink.new) bytes.now) }
    ensures part { OnErr result (GrewByPart (S.taken sink.old) (S.taken sink.new) bytes.now) }
    ensures failed { OnErr result (Rose (S.faults sink.old) (S.faults sink.new)) }
    ensures calm { OnOk result (S.faults sink.new ≡ S.faults sink.old) }
    ensures asked { OnErr result (bytes.now ≢ []) }
    ensures counts { S.faults sink.old ≤ S.faults sink.new }

    // With no byte to write the sink is not called.
    ensures idle { bytes.now ≡ [] → sink.new ≡ sink.old }
{
    let mut done = 0;
    while done < bytes.len() {
        match sink.write(&bytes[done..]) {
            Ok(n) => done += n,
            Err(Failed) => return Err(WriteFault),
        }
    }
    Ok(())
}
