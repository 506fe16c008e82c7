//! Named inputs are read, or the run stops.
ghost use Rattle.std.specs.Prelude.{◌≡◌, ◌++◌, ◌<◌, ℕ, List, Err, IfOk, OnOk, MatchResult, codes, length, map, string_bytes};
ghost use Rattle.std.specs.List.{AllByRecursion};
ghost use Rattle.run_base.specs.Said.{said};
ghost use Rattle.run_base.specs.Reading.{AllHeld, AreOnlyRead, FailedAs, IsHeld, IsStop, IsStopAmong, RoseOf, names_at, word_at};

use crate::outcome::{Status, Stop};
use input_output::limits::INPUT_BYTES;
use input_output::{InputFail, Inputs, NoMemory};
use net_base::List;
use std::alloc::Global;
use text_parts::push_bytes;

// A line about a name.
fn line_about(alloc: Global, what: &[u8], name: &str) -> Result<Vec<u8>, NoMemory>
    ensures { IfOk result (λ v. v.items ≡ codes "propane: " ++ what.now ++ name.now ++ codes "\n") }
{
    let mut line = Vec::new(alloc);
    push_bytes(&mut line, b"propane: ")?;
    push_bytes(&mut line, what)?;
    push_bytes(&mut line, name.as_bytes())?;
    push_bytes(&mut line, b"\n")?;
    Ok(line)
}

// The bytes of a name.
fn read_named<I: Inputs>(alloc: Global, inputs: &mut I, name: &str) -> Result<Vec<u8>, Stop>
    ensures read { MatchResult result (λ v. IsHeld (I.holds inputs.old) name.now v.items)
        (λ stop. IsStop (I.holds inputs.old) (RoseOf (I.faults inputs.old) (I.faults inputs.new)) name.now (said (Err stop))) }
    ensures failed { FailedAs (said result).status (I.all_faults inputs.old) (I.all_faults inputs.new) }
    ensures calm { OnOk result ((n : List ℕ) → I.faults inputs.new n ≡ I.faults inputs.old n) }
    ensures kept { AreOnlyRead (I.holds inputs.old) (I.holds inputs.new) (I.faults inputs.old) (I.faults inputs.new) (I.sure inputs.old) (I.sure inputs.new) }
{
    // Made first: a reading that fails is told, though no memory is left.
    let unread = line_about(alloc, b"cannot read ", name)?;
    match inputs.read(alloc, name, INPUT_BYTES) {
        Ok(bytes) => Ok(bytes),
        Err(InputFail::NoMemory) => Err(Stop::NoMemory),
        Err(InputFail::Failed) => Err(Stop::Line(Status::ReadFault, unread)),
        Err(InputFail::TooLong) => {
            let line = line_about(alloc, b"too long ", name)?;
            Err(Stop::Line(Status::BadInput, line))
        }
    }
}

// The word at a place.
fn word(words: &[String], place: u32) -> &str
    requires { place < length words.now }
    ensures { result.now ≡ word_at (map string_bytes words.now) place }
{
    words[place as usize].as_str()
}

/// The bytes of the names that stand at these places of the words, read one after another, or why the run stops at one. The first
/// reading that fails ends it.
pub fn read_all<I: Inputs>(
    alloc: Global,
    inputs: &mut I,
    words: &[String],
    places: &[u32],
) -> Result<List<List<u8>>, Stop>
    requires { AllByRecursion (λ place. place < length words.now) places.now }
    ensures read { let names = names_at (map string_bytes words.now) places.now in
        MatchResult result (AllHeld (I.holds inputs.old) names) (λ stop. IsStopAmong (I.holds inputs.old) (RoseOf (I.faults inputs.old) (I.faults inputs.new)) names (said (Err stop))) }
    ensures failed { MatchResult result (λ _. I.all_faults inputs.new ≡ I.all_faults inputs.old)
        (λ stop. FailedAs (said (Err stop)).status (I.all_faults inputs.old) (I.all_faults inputs.new)) }
    ensures kept { AreOnlyRead (I.holds inputs.old) (I.holds inputs.new) (I.faults inputs.old) (I.faults inputs.new) (I.sure inputs.old) (I.sure inputs.new) }
{
    let mut texts = List::new(alloc);
    for place in places {
        let text = read_named(alloc, inputs, word(words, *place))?;
        texts.push(List::from_vec(text))?;
    }
    Ok(texts)
}
