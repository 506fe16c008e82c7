//! The lines of messages that wait. Each `push_` function adds a text to the end of another.
ghost use Rattle.std.specs.Prelude.{◌≡◌, ◌++◌, OnOk, option_map};
ghost use Rattle.std.specs.List.{flat_map};
ghost use Rattle.outcome_report.specs.Lines.{next_name};
ghost use Rattle.waiting_report.specs.Lines.{message_text, waits_line};

use config_base::Route;
use input_output::NoMemory;
use net_base::{Loc, Net};
use outcome_report::push_next;
use text_parts::push_bytes;

// Adds the names along a path, each after a space.
fn push_names(text: &mut Vec<u8>, net: &Net, path: &[Loc]) -> Result<(), NoMemory>
    ensures { OnOk result (text.new.items ≡ text.old.items ++ flat_map (next_name net.now) path.now) }
{
    for at in path {
        push_next(text, net, *at)?;
    }
    Ok(())
}

// Adds what a message says: the path of the route that it announces, or that it withdraws one.
fn push_message(text: &mut Vec<u8>, net: &Net, message: Option<&Route>) -> Result<(), NoMemory>
    ensures { OnOk result (text.new.items ≡ text.old.items ++ message_text net.now (option_map (λ m. m.now) message.entry)) }
{
    match message {
        None => push_bytes(text, b" withdraw"),
        Some(route) => {
            push_bytes(text, b" path")?;
            push_names(text, net, route.path.as_slice())
        }
    }
}

/// Adds the line of a message that waits from one location to another.
#[tactic(auto, unfolding(crate::specs::Lines::waits_line))]
pub(crate) fn push_waits(
    text: &mut Vec<u8>,
    net: &Net,
    from: Loc,
    to: Loc,
    message: Option<&Route>,
) -> Result<(), NoMemory>
    ensures { OnOk result (text.new.items ≡ text.old.items ++ waits_line net.now from to (option_map (λ m. m.now) message.entry)) }
{
    push_bytes(text, b"waits")?;
    push_next(text, net, from)?;
    push_next(text, net, to)?;
    push_message(text, net, message)?;
    push_bytes(text, b"\n")
}
