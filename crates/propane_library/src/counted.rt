//! Runs over inputs and sinks that never fail.
ghost use Rattle.std.specs.Prelude.{◌≡◌, ◌≢◌, ℕ, List, None, IsSome, IfOk, IfSome, map, string_bytes};
ghost use Rattle.net_base.specs.Network.{PlainNet};
ghost use Rattle.policy_base.specs.Policies.{PlainPolicy};
ghost use Rattle.case_core.specs.declared.refusal.CompileRefusal.{CompileRefusal};
ghost use Rattle.input_output.specs.SureInputs.{bytes_of};
ghost use Rattle.compile_jobs.specs.Compiled.{IsRefusedFor};
ghost use Rattle.propane_run.specs.Words.{words_are};
ghost use Rattle.propane_library.specs.Texts.{IsRightText, Spell, topology_name, policy_name};

use crate::words::{POLICY, TOPOLOGY, words_for};
use input_output::{CountSink, NoMemory, SureInputs};
use propane_run::{Status, run};
use std::alloc::Global;

/// A run of any command: neither a read fault nor a write fault can come.
pub fn run_surely(
    alloc: Global,
    words: &[String],
    inputs: &mut SureInputs,
    out: &mut CountSink,
    err: &mut CountSink,
) -> Status
    ensures read { result ≢ Status.ReadFault }
    ensures write { result ≢ Status.WriteFault }

    // So words that are no command end with Usage.
    ensures usage { words_are (map string_bytes words.now) ≡ None → result ≡ Status.Usage }

    // Done and CheckFails count on `out` alone, each other status on `err` alone, and want of memory on neither.
    ensures done { result ≡ Status.Done → err.new ≡ err.old }
    ensures check_fails { result ≡ Status.CheckFails → err.new ≡ err.old }
    ensures text { result ≢ Status.Done → result ≢ Status.CheckFails → out.new ≡ out.old }
    ensures no_memory { result ≡ Status.NoMemory → err.new ≡ err.old }

    // Another run finds the same bytes.
    ensures holds { (name : List ℕ) → bytes_of inputs.new name ≡ bytes_of inputs.old name }
{
    run(alloc, words, inputs, out, err)
}

// Both texts, held under their names.
fn held(alloc: Global, topology: &[u8], policy: &[u8]) -> Result<SureInputs, NoMemory>
    ensures topology { IfOk result (λ inputs. bytes_of inputs topology_name ≡ topology.now) }
    ensures policy { IfOk result (λ inputs. bytes_of inputs policy_name ≡ policy.now) }
{
    let mut inputs = SureInputs::new(alloc);
    inputs.hold(TOPOLOGY, topology)?;
    inputs.hold(POLICY, policy)?;
    Ok(inputs)
}

/// How many bytes the text has that is compiled from the two texts; None where the policy is refused, or a text is too long
/// or breaks a rule. So it says how much room `compile_in_memory` takes.
pub fn count_compiled(
    alloc: Global,
    topology: &[u8],
    policy: &[u8],
) -> Result<Option<u64>, NoMemory>
    // There is a count only where a text is right for the two.
    ensures right { IfOk result (λ count. IfSome count (λ _. (text : List ℕ) × IsRightText topology.now policy.now text)) }

    // There is none where a refusal applies, and there is one where none applies, or memory runs out.
    ensures refused_where { (net : PlainNet) (asked : PlainPolicy) (e : CompileRefusal) → Spell topology.now policy.now net asked
        → IsRefusedFor net asked e → IfOk result (λ count. count ≡ None) }
    ensures compiled_where { (net : PlainNet) (asked : PlainPolicy) → Spell topology.now policy.now net asked
        → ((e : CompileRefusal) → ¬ IsRefusedFor net asked e) → IfOk result (λ count. IsSome count) }
{
    let words = words_for(alloc)?;
    let mut inputs = held(alloc, topology, policy)?;
    let mut out = CountSink::new();
    let mut err = CountSink::new();
    match run(alloc, &words, &mut inputs, &mut out, &mut err) {
        Status::Done => Ok(Some(out.count())),
        Status::Refused | Status::BadInput => Ok(None),
        Status::NoMemory => Err(NoMemory),
        // The words are a command that compiles, and nothing fails.
        Status::Usage | Status::ReadFault | Status::WriteFault | Status::CheckFails =>
            unreachable!(),
    }
}
