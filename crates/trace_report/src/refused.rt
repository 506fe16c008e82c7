//! Events that are refused, and their lines.
ghost use Rattle.std.specs.Prelude.{◌≡◌, ◌++◌, OnOk};
ghost use Rattle.std.specs.List.{flat_map};
ghost use Rattle.trace_report.specs.Lines.{refused_line};

use event_base::EventFault;
use input_output::NoMemory;
use text_parts::{push_bytes, push_number, push_word};

/// An event that is refused: its number, from 1, and why.
#[derive(Clone, Copy, Debug, PartialEq, Eq)]
pub struct Refused {
    /// The number of the event in its list, from 1.
    pub number: u64,
    /// Why it is refused.
    pub why: EventFault,
}

// Adds the line of a refused event.
#[tactic(auto, unfolding(crate::specs::Lines::refused_line))]
fn push_refused(text: &mut Vec<u8>, refused: Refused) -> Result<(), NoMemory>
    ensures { OnOk result (text.new.items ≡ text.old.items ++ refused_line refused) }
{
    push_bytes(text, b"event ")?;
    push_number(text, refused.number)?;
    push_word(text, refused.why.word())?;
    push_bytes(text, b"\n")
}

/// Adds the lines of refused events.
pub fn push_each_refused(text: &mut Vec<u8>, refused: &[Refused]) -> Result<(), NoMemory>
    ensures { OnOk result (text.new.items ≡ text.old.items ++ flat_map refused_line refused.now) }
{
    for event in refused {
        push_refused(text, *event)?;
    }
    Ok(())
}
