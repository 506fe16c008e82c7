//! The top call: which words are which command, which job that is, and what a run promises.
//!
//! `run` takes the words after the program's name, the inputs and two sinks. The first word names the command, and the names
//! of its inputs follow it: so a command is known by its word and by how many names it reads (`Command`, which owns nothing
//! and is copied). Its inputs are read in order, its job is done on their bytes, and what it comes to is delivered.
//! `specs/Words` says which words are a command, `specs/Run` what a job says of bytes, `specs/Clauses` and `specs/Ends` what
//! the clauses of `run` are made of.
//!
//! The clauses name no command but `compile`, whose claim a reader is to see in full (`right`): the text that was written
//! spells a configuration that keeps the policy. The claim names no evidence. That evidence passes for what was written is
//! said beside it, by what `compile` promises. What each command promises is data of the command (`Promised`): it says for
//! each command and status what the sink has taken. `EndsRight` says where a command succeeds, fails or refuses, and what it
//! was asked about is said by command (`IsFor`): the inputs of `replay` must spell a scenario, too, before a refusal can be
//! told. So a further command changes no clause. A command ends as done, refused or failing only where `Promised` lists that
//! for it. Which line a failing check gives is in the verdict, so `ends` says the status alone.
//!
//! Each sink is spoken of only where something is to go to it: where a command is to refuse, `ends` asks for a calm error
//! output, and otherwise for a calm output; `complete` delivers. The clause `whole` is the strongest of those on what is
//! written, and the others follow from it. So it stays, though no caller in the repository cites it.
//!
//! The laws of a run are proved for any job: that what it says of bytes has one of a few forms and is one thing
//! (`commands_say_one_thing`, `told_texts_come_to_one_thing`).
//!
//! It knows nothing of files.
#![tactic(auto)]

ghost use Rattle.std.specs.Prelude.{◌≡◌, ◌≢◌, ◌⊎◌, ◌≤◌, ℕ, List, Some, None, length, map, string_bytes};
ghost use Rattle.input_output.specs.Outside.{Rose};
ghost use Rattle.run_base.specs.Reading.{AreOnlyRead, FailedAs, IsAmong, RoseOf, SaidOfTold, unread};
ghost use Rattle.run_base.specs.Said.{Calm, Said, said, text, Delivered, MetFault, Whole};
ghost use Rattle.propane_run.specs.Clauses.{FaultFound, ReadsSmoothly};
ghost use Rattle.propane_run.specs.Ends.{EndsRight};
ghost use Rattle.propane_run.specs.Headline.{CompilesRight};
ghost use Rattle.propane_run.specs.Promises.{Promised};
ghost use Rattle.propane_run.specs.Run.{IsAnswer, IsAnswerOf, Comes, Job, Ran};
ghost use Rattle.propane_run.specs.Words.{words_are, names_read, usage, IsWithin};

mod command;
mod jobs;
mod laws;

pub use command::{Command, Course, Outlook, words_of};
use help_texts::USAGE;
use input_output::{Inputs, Sink};
pub use laws::{commands_say_one_thing, told_texts_come_to_one_thing, written_pairs_pass};
pub use run_base::Status;
use run_base::{Stop, deliver, read_all, send};
use std::alloc::Global;

// What a command comes to, before anything is written: its names are read in order, and its job is done on their bytes.
fn answer<I: Inputs>(
    alloc: Global,
    words: &[String],
    inputs: &mut I,
    command: Command,
) -> Result<Vec<u8>, Stop>
    requires { IsWithin (length words.now) command }
    ensures says { IsAnswerOf (I.holds inputs.old) (RoseOf (I.faults inputs.old) (I.faults inputs.new)) (map string_bytes words.now) (Some command) (said result) }
    ensures failed { FailedAs (said result).status (I.all_faults inputs.old) (I.all_faults inputs.new) }
    ensures read { AreOnlyRead (I.holds inputs.old) (I.holds inputs.new) (I.faults inputs.old) (I.faults inputs.new) (I.sure inputs.old) (I.sure inputs.new) }
{
    let texts = read_all(alloc, inputs, words, command.places())?;
    jobs::job(alloc, &command, texts.as_slice())
}

// The words are judged, the inputs are read, the job runs, and what it comes to is written.
fn run_whole<I: Inputs, O: Sink, E: Sink>(
    alloc: Global,
    words: &[String],
    inputs: &mut I,
    out: &mut O,
    err: &mut E,
) -> Status
    ensures ran { Ran O.taken O.faults E.taken E.faults (I.holds inputs.old) (RoseOf (I.faults inputs.old) (I.faults inputs.new))
        (I.all_faults inputs.old) (I.all_faults inputs.new) (map string_bytes words.now) out.old out.new err.old err.new result }
    ensures read { AreOnlyRead (I.holds inputs.old) (I.holds inputs.new) (I.faults inputs.old) (I.faults inputs.new) (I.sure inputs.old) (I.sure inputs.new) }
    ensures out_counts { O.faults out.old ≤ O.faults out.new }
    ensures err_counts { E.faults err.old ≤ E.faults err.new }
{
    match words_of(words) {
        Some(command) => {
            let came = answer(alloc, words, inputs, command);
            deliver(&came, out, err)
        }
        None => send(err, USAGE, Status::Usage),
    }
}

/// The run of a command: the words after the program's name, the named inputs, and the two sinks.
///
/// The words are judged first; then the inputs are read in the order of the words; then each text is judged in
/// that order; then the writes are made. The first thing that goes wrong ends the run and decides the status: a
/// reading or a write that fails isn't tried again. The whole output is
/// made in memory before its first byte is written, and a sink to which nothing is to go isn't called.
pub fn run<I: Inputs, O: Sink, E: Sink>(
    alloc: Global,
    words: &[String],
    inputs: &mut I,
    out: &mut O,
    err: &mut E,
) -> Status
    // Where `compile` ends with Done, `out` grew by the text of a configuration, which keeps the policy in the network, as
    // the inputs mean them.
    ensures right { words_are (map string_bytes words.now) ≡ Some Command.Compile → result ≡ Status.Done
        → CompilesRight (I.holds inputs.old) O.taken (map string_bytes words.now) out.old out.new }

    // Where a command ends with Done, `out` grew by what the command promises.
    ensures promised { (c : Command) → words_are (map string_bytes words.now) ≡ Some c → result ≡ Status.Done
        → Promised (I.holds inputs.old) O.taken (map string_bytes words.now) c Status.Done out.old out.new }

    // It ends with CheckFails only where the command judges what it is given, and that fails, which `out` tells as it promises.
    ensures check_fails { result ≡ Status.CheckFails → (c : Command) × (words_are (map string_bytes words.now) ≡ Some c)
        × Promised (I.holds inputs.old) O.taken (map string_bytes words.now) c Status.CheckFails out.old out.new × (err.new ≡ err.old) }

    // It ends with Refused only where the command may refuse what it is given, and does, which `err` tells as it promises.
    ensures refused { result ≡ Status.Refused → (c : Command) × (words_are (map string_bytes words.now) ≡ Some c)
        × Promised (I.holds inputs.old) E.taken (map string_bytes words.now) c Status.Refused err.old err.new × (out.new ≡ out.old) }

    // Where all that a command reads is told and no count of it rises, it ends as it is to end by what its inputs spell, if no count
    // rises of the sink that is to take something; or memory ran out.
    ensures ends { (c : Command)
        → ReadsSmoothly (I.holds inputs.old) (RoseOf (I.faults inputs.old) (I.faults inputs.new)) (map string_bytes words.now) c
        → EndsRight (I.holds inputs.old) (map string_bytes words.now)
        (¬ Rose (O.faults out.old) (O.faults out.new) → (result ≡ Status.NoMemory) ⊎ (result ≡ Status.Done))
        (¬ Rose (O.faults out.old) (O.faults out.new) → (result ≡ Status.NoMemory) ⊎ (result ≡ Status.CheckFails))
        (λ line. ¬ Rose (E.faults err.old) (E.faults err.new)
        → (result ≡ Status.NoMemory) ⊎ (result ≡ Status.Refused) × Whole E.taken line err.old err.new × (out.new ≡ out.old)) c }

    // All that a run may do: an answer of the words and the inputs, delivered. The other clauses on what is written, and on what
    // failed, follow.
    ensures whole { (what : Said)
        × IsAnswer (I.holds inputs.old) (RoseOf (I.faults inputs.old) (I.faults inputs.new)) (map string_bytes words.now) what
        × FailedAs what.status (I.all_faults inputs.old) (I.all_faults inputs.new)
        × Delivered O.taken O.faults E.taken E.faults what out.old out.new err.old err.new result }

    // On Done `out` grew by exactly the text that the bytes of the inputs come to, and `err` is untouched.
    ensures done { result ≡ Status.Done → (c : Command) × (bytes : List ℕ)
        × Comes (I.holds inputs.old) (map string_bytes words.now) c (text bytes)
        × Whole O.taken bytes out.old out.new × (err.new ≡ err.old) }

    // Usage exactly where the words are no command, unless its line met a fault.
    ensures usage_only { result ≡ Status.Usage → (words_are (map string_bytes words.now) ≡ None)
        × Whole E.taken usage.to_err err.old err.new × (out.new ≡ out.old) }
    ensures usage { words_are (map string_bytes words.now) ≡ None
        → (result ≡ Status.Usage) ⊎ (result ≡ Status.WriteFault) }

    // ReadFault only where the reading of a name failed that the command reads, and no other reading; the line names it.
    ensures read_fault { result ≡ Status.ReadFault → (c : Command) × (name : List ℕ)
        × (words_are (map string_bytes words.now) ≡ Some c) × IsAmong (names_read (map string_bytes words.now) c) name
        × Rose (I.faults inputs.old name) (I.faults inputs.new name)
        × Whole E.taken (unread name).to_err err.old err.new × (out.new ≡ out.old)
        × Rose (I.all_faults inputs.old) (I.all_faults inputs.new) }

    // BadInput only where a named input is too long or its bytes are not lawful; the line tells the fault.
    ensures bad_input { result ≡ Status.BadInput → (c : Command) × (line : List ℕ)
        × (words_are (map string_bytes words.now) ≡ Some c)
        × FaultFound (I.holds inputs.old) (map string_bytes words.now) c line
        × Whole E.taken line err.old err.new × (out.new ≡ out.old) }

    // WriteFault only where one write failed, to a sink that was to take something, and took a front of it.
    ensures write_fault { result ≡ Status.WriteFault → (what : Said)
        × IsAnswer (I.holds inputs.old) (RoseOf (I.faults inputs.old) (I.faults inputs.new)) (map string_bytes words.now) what
        × FailedAs what.status (I.all_faults inputs.old) (I.all_faults inputs.new)
        × MetFault O.taken O.faults E.taken E.faults what out.old out.new err.old err.new }

    // The first call that fails ends the run: where it ends with another status, no reading failed, and no write did.
    ensures reads { result ≢ Status.ReadFault → result ≢ Status.WriteFault → I.all_faults inputs.new ≡ I.all_faults inputs.old }
    ensures writes { result ≢ Status.WriteFault → Calm O.faults out.old out.new × Calm E.faults err.old err.new }

    // Want of memory writes nothing.
    ensures no_memory { result ≡ Status.NoMemory → (out.new ≡ out.old) × (err.new ≡ err.old) }

    // Where all that a command reads is told and no count of it rises, what the bytes come to is delivered, or memory ran out.
    ensures complete { (c : Command)
        → ReadsSmoothly (I.holds inputs.old) (RoseOf (I.faults inputs.old) (I.faults inputs.new)) (map string_bytes words.now) c
        → (result ≡ Status.NoMemory)
        ⊎ (wanted : Said) × SaidOfTold (I.holds inputs.old) (names_read (map string_bytes words.now) c) (Job c) wanted
        × Delivered O.taken O.faults E.taken E.faults wanted out.old out.new err.old err.new result }

    // Another run may follow: no read changed what a name holds, no count fell, and a name that is sure stays so.
    ensures holds { (name : List ℕ) → I.holds inputs.new name ≡ I.holds inputs.old name }
    ensures counts { (name : List ℕ) → I.faults inputs.old name ≤ I.faults inputs.new name }
    ensures sure { (name : List ℕ) → I.sure inputs.old name → (I.faults inputs.new name ≡ I.faults inputs.old name) × I.sure inputs.new name }
    ensures out_counts { O.faults out.old ≤ O.faults out.new }
    ensures err_counts { E.faults err.old ≤ E.faults err.new }
{
    run_whole(alloc, words, inputs, out, err)
}
