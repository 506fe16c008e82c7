//! The tail of every command: what it came to is written.
ghost use Rattle.std.specs.Prelude.{◌≤◌};
ghost use Rattle.run_base.specs.Said.{said, stop_said, Sent, Delivered};

use crate::outcome::{Status, Stop};
use input_output::{Sink, write_whole};

/// Writes the bytes, and gives the status, or `WriteFault`.
pub fn send<S: Sink>(sink: &mut S, bytes: &[u8], status: Status) -> Status
    ensures sent { Sent S.taken S.faults bytes.now status sink.old sink.new result }
    ensures counts { S.faults sink.old ≤ S.faults sink.new }
{
    match write_whole(sink, bytes) {
        Ok(()) => status,
        Err(_) => Status::WriteFault,
    }
}

// Says why a command gives no text.
fn tell<O: Sink, E: Sink>(stop: &Stop, out: &mut O, err: &mut E) -> Status
    ensures delivered { Delivered O.taken O.faults E.taken E.faults (stop_said stop.now)
        out.old out.new err.old err.new result }
    ensures out_counts { O.faults out.old ≤ O.faults out.new }
    ensures err_counts { E.faults err.old ≤ E.faults err.new }
{
    match stop {
        Stop::Line(status, line) => send(err, line, *status),
        Stop::Failing(line) => send(out, line, Status::CheckFails),
        Stop::NoMemory => Status::NoMemory,
    }
}

/// Writes what a command came to, and says how the run ended.
pub fn deliver<O: Sink, E: Sink>(came: &Result<Vec<u8>, Stop>, out: &mut O, err: &mut E) -> Status
    ensures delivered { Delivered O.taken O.faults E.taken E.faults (said came.now)
        out.old out.new err.old err.new result }
    ensures out_counts { O.faults out.old ≤ O.faults out.new }
    ensures err_counts { E.faults err.old ≤ E.faults err.new }
{
    match came {
        Ok(text) => send(out, text, Status::Done),
        Err(stop) => tell(stop, out, err),
    }
}
