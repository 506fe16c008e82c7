//! What is said of a text that breaks a rule.
ghost use Rattle.std.specs.Prelude.{◌≡◌, IfErr, IfOk, Ok};
ghost use Rattle.input_texts.specs.FaultLines.{fault_line as line_of};
ghost use Rattle.input_texts.specs.Texts.{TellsFault};

use input_output::NoMemory;
use run_base::{Status, Stop};
use std::alloc::Global;
use text_parts::{TextFault, push_bytes, push_number, push_word};

// The line that tells a fault of a kind of text: the number of the rule, its word and its values.
#[tactic(auto, unfolding(crate::specs::FaultLines::fault_line))]
fn fault_line<F: TextFault>(alloc: Global, text: &[u8], fault: &F) -> Result<Vec<u8>, NoMemory>
    ensures { IfOk result (λ v. v.items ≡ line_of F.telling text.now fault.now) }
{
    let mut line = Vec::new(alloc);
    push_bytes(&mut line, b"propane: ")?;
    push_bytes(&mut line, text)?;
    push_bytes(&mut line, b" ")?;
    push_number(&mut line, u64::from(fault.number()))?;
    push_word(&mut line, fault.word())?;
    fault.push_values(&mut line)?;
    push_bytes(&mut line, b"\n")?;
    Ok(line)
}

/// What was read of a text of this kind, or why the run stops: its fault is told.
pub fn or_told<T, F: TextFault + Copy>(
    alloc: Global,
    text: &[u8],
    read: Result<T, F>,
) -> Result<T, Stop>
    ensures same { IfOk result (λ x. read ≡ Ok x) }
    ensures told { IfErr result (TellsFault F.telling text.now read) }
{
    match read {
        Ok(value) => Ok(value),
        Err(fault) => {
            if fault.is_no_memory() {
                return Err(Stop::NoMemory);
            }
            let line = fault_line(alloc, text, &fault)?;
            Err(Stop::Line(Status::BadInput, line))
        }
    }
}
