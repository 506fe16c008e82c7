//! Two texts in memory, which are compiled.
ghost use Rattle.std.specs.Prelude.{◌≡◌, ℕ, List, [], Some, IfOk, map, string_bytes};
ghost use Rattle.net_base.specs.Network.{PlainNet};
ghost use Rattle.policy_base.specs.Policies.{PlainPolicy};
ghost use Rattle.case_core.specs.declared.refusal.CompileRefusal.{CompileRefusal};
ghost use Rattle.input_output.specs.MemInputs.{told};
ghost use Rattle.compile_jobs.specs.Compiled.{IsRefusedFor};
ghost use Rattle.refusal_lines.specs.RefusalLines.{refusal_line};
ghost use Rattle.run_base.specs.Said.{Said};
ghost use Rattle.propane_library.specs.Coming.{ComesTo, GivesText, TellsRefusal, AreAlike};
ghost use Rattle.propane_library.specs.Holding.{IsReady, IsToSay, CameOf};
ghost use Rattle.propane_library.specs.Texts.{Spell, compile_words, topology_name, policy_name};

use crate::came::Came;
use crate::words::{POLICY, TOPOLOGY, words_for};
use input_output::{MemInputs, MemSink, NoMemory};
use propane_run::{Status, run, told_texts_come_to_one_thing};
use std::alloc::Global;

// Both texts, held under their names: their reading can't fail.
fn held(alloc: Global, topology: &[u8], policy: &[u8]) -> Result<MemInputs, NoMemory>
    ensures topology { IfOk result (λ inputs. told inputs topology_name ≡ Some topology.now) }
    ensures policy { IfOk result (λ inputs. told inputs policy_name ≡ Some policy.now) }
    ensures ready_topology { IfOk result (λ inputs. IsReady inputs topology_name) }
    ensures ready_policy { IfOk result (λ inputs. IsReady inputs policy_name) }
{
    let mut inputs = MemInputs::new(alloc);
    inputs.hold(TOPOLOGY, topology)?;
    inputs.hold(POLICY, policy)?;
    Ok(inputs)
}

// What a sink took.
fn copy_of(alloc: Global, sink: &MemSink) -> Result<Vec<u8>, NoMemory>
    ensures { IfOk result (λ v. v.items ≡ sink.now.bytes) }
{
    Ok(sink.taken().to_vec(alloc)?)
}

// A run of `compile` over inputs that hold both texts, which are as ready for another run afterwards.
fn compile_held(
    alloc: Global,
    words: &[String],
    inputs: &mut MemInputs,
    room: usize,
) -> Result<Came, NoMemory>
    requires words { map string_bytes words.now ≡ compile_words }
    requires ready_topology { IsReady inputs.old topology_name }
    requires ready_policy { IsReady inputs.old policy_name }

    // What `compile_in_memory` promises.
    ensures right { (topology policy : List ℕ) → told inputs.old topology_name ≡ Some topology → told inputs.old policy_name ≡ Some policy
        → IfOk result (ComesTo topology policy) }
    ensures refused_where { (topology policy : List ℕ) → told inputs.old topology_name ≡ Some topology → told inputs.old policy_name ≡ Some policy
        → (net : PlainNet) (asked : PlainPolicy) (e : CompileRefusal) → Spell topology policy net asked
        → IsRefusedFor net asked e → IfOk result (TellsRefusal (refusal_line net e)) }
    ensures compiled_where { (topology policy : List ℕ) → told inputs.old topology_name ≡ Some topology → told inputs.old policy_name ≡ Some policy
        → (net : PlainNet) (asked : PlainPolicy) → Spell topology policy net asked
        → ((e : CompileRefusal) → ¬ IsRefusedFor net asked e) → IfOk result GivesText }

    // It comes to what is to be said of the bytes that are held.
    ensures said { IfOk result (λ came. (what : Said) × IsToSay inputs.old what × CameOf what came) }

    ensures holds { (name : List ℕ) → told inputs.new name ≡ told inputs.old name }
    ensures ready_topology { IsReady inputs.new topology_name }
    ensures ready_policy { IsReady inputs.new policy_name }
{
    let mut out = MemSink::new(alloc, room, usize::MAX)?;
    let mut err = MemSink::new(alloc, room, usize::MAX)?;
    match run(alloc, words, inputs, &mut out, &mut err) {
        Status::Done => Ok(Came::Compiled(copy_of(alloc, &out)?)),
        Status::Refused => Ok(Came::Refused(copy_of(alloc, &err)?)),
        Status::BadInput => Ok(Came::Faulty(copy_of(alloc, &err)?)),
        Status::WriteFault => Ok(Came::NoRoom),
        Status::NoMemory => Err(NoMemory),
        // The words are a command that compiles, and no reading fails.
        Status::Usage | Status::ReadFault | Status::CheckFails => unreachable!(),
    }
}

/// Compiles the policy for the network. What is written has at most `room` bytes, which are reserved at once.
///
/// The text that is given spells a configuration which is right for the network and the policy; a refusal that is told
/// applies to them; a fault that is told is one of the texts. There is no other answer but `NoRoom`, and `NoMemory`.
pub fn compile_in_memory(
    alloc: Global,
    topology: &[u8],
    policy: &[u8],
    room: usize,
) -> Result<Came, NoMemory>
    ensures right { IfOk result (ComesTo topology.now policy.now) }

    // A refusal that applies is told, unless there is no room or memory runs out.
    ensures refused_where { (net : PlainNet) (asked : PlainPolicy) (e : CompileRefusal) → Spell topology.now policy.now net asked
        → IsRefusedFor net asked e → IfOk result (TellsRefusal (refusal_line net e)) }

    // And a text is given where none applies.
    ensures compiled_where { (net : PlainNet) (asked : PlainPolicy) → Spell topology.now policy.now net asked
        → ((e : CompileRefusal) → ¬ IsRefusedFor net asked e) → IfOk result GivesText }
{
    let words = words_for(alloc)?;
    let mut inputs = held(alloc, topology, policy)?;
    compile_held(alloc, &words, &mut inputs, room)
}

/// Compiles them twice over the same inputs: both runs come to the same bytes, unless one of them finds no room.
pub fn compile_twice(
    alloc: Global,
    topology: &[u8],
    policy: &[u8],
    room: usize,
) -> Result<(Came, Came), NoMemory>
    ensures first { IfOk result (λ twice. ComesTo topology.now policy.now twice.0) }
    ensures again { IfOk result (λ twice. ComesTo topology.now policy.now twice.1) }
    ensures alike { IfOk result (λ twice. AreAlike twice.0 twice.1) }
{
    let words = words_for(alloc)?;
    let mut inputs = held(alloc, topology, policy)?;
    let first = compile_held(alloc, &words, &mut inputs, room)?;
    let again = compile_held(alloc, &words, &mut inputs, room)?;
    told_texts_come_to_one_thing();
    Ok((first, again))
}
