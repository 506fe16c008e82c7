//! A run, and another where a read failed.
ghost use Rattle.std.specs.Prelude.{◌≡◌, ◌⊎◌, ◌≤◌, ℕ, List, ◌++◌, map, string_bytes};
ghost use Rattle.input_output.specs.MemInputs.{told, count};
ghost use Rattle.run_base.specs.Reading.{unread};
ghost use Rattle.propane_run.specs.Run.{Comes};
ghost use Rattle.run_base.specs.Said.{text};
ghost use Rattle.propane_run.specs.declared.command.Command.{Command};

use input_output::{MemInputs, MemSink};
use propane_run::{Status, run};
use std::alloc::Global;

/// A run of a command; and where a read failed, one more over the same inputs and sinks.
pub fn run_again(
    alloc: Global,
    words: &[String],
    inputs: &mut MemInputs,
    out: &mut MemSink,
    err: &mut MemSink,
) -> Status
    // On Done `out` took exactly the text that comes of the bytes which the inputs held at first.
    ensures done { result ≡ Status.Done → (c : Command) × (bytes : List ℕ)
        × Comes (told inputs.old) (map string_bytes words.now) c (text bytes) × (out.new.bytes ≡ out.old.bytes ++ bytes) }

    // `err` took nothing then, or the line of the name that couldn't be read at first.
    ensures done_on_err { result ≡ Status.Done → (err.new ≡ err.old)
        ⊎ ((name : List ℕ) × (err.new.bytes ≡ err.old.bytes ++ (unread name).to_err)) }

    // More runs may follow: a name holds what it held, and no count fell.
    ensures holds { (name : List ℕ) → told inputs.new name ≡ told inputs.old name }
    ensures counts { (name : List ℕ) → count inputs.old name ≤ count inputs.new name }
    ensures out_counts { out.old.faults ≤ out.new.faults }
    ensures err_counts { err.old.faults ≤ err.new.faults }
{
    match run(alloc, words, inputs, out, err) {
        Status::ReadFault => run(alloc, words, inputs, out, err),
        status => status,
    }
}
