//! The text of what carries nothing. Each `push_` function adds a text to the end of another.
ghost use Rattle.std.specs.Prelude.{◌≡◌, ◌++◌, IfOk, OnOk};
ghost use Rattle.std.specs.List.{flat_map};
ghost use Rattle.config_base.specs.Configs.{PlainConfig};
ghost use Rattle.config_base.specs.Lines.{class_of};
ghost use Rattle.drain_report.specs.Texts.{count_line, drain_text as text_of_drain, free_line, free_text};

use crate::Drain;
use impact_law::Cut;
use input_output::NoMemory;
use net_base::{Net, Prefix};
use outcome_report::{push_head, push_next};
use std::alloc::Global;
use text_parts::{push_bytes, push_number};

// Adds what is free.
fn push_free(text: &mut Vec<u8>, net: &Net, cut: Cut) -> Result<(), NoMemory>
    ensures { OnOk result (text.new.items ≡ text.old.items ++ free_text net.now cut) }
{
    match cut {
        Cut::Link(a, b) => {
            push_bytes(text, b"free link")?;
            push_next(text, net, a)?;
            push_next(text, net, b)
        }
        Cut::Router(router) => {
            push_bytes(text, b"free router")?;
            push_next(text, net, router)
        }
    }
}

// Adds the line of a link or router that is free.
fn push_line(text: &mut Vec<u8>, net: &Net, cut: Cut) -> Result<(), NoMemory>
    ensures { OnOk result (text.new.items ≡ text.old.items ++ free_line net.now cut) }
{
    push_free(text, net, cut)?;
    push_bytes(text, b"\n")
}

// Adds the lines of the links and routers that are free.
fn push_lines(text: &mut Vec<u8>, net: &Net, free: &[Cut]) -> Result<(), NoMemory>
    ensures { OnOk result (text.new.items ≡ text.old.items ++ flat_map (free_line net.now) free.now) }
{
    for cut in free {
        push_line(text, net, *cut)?;
    }
    Ok(())
}

// Adds the line that counts them, and those that live.
#[tactic(auto, unfolding(crate::specs::Texts::count_line))]
fn push_count(text: &mut Vec<u8>, free: usize, live: usize) -> Result<(), NoMemory>
    ensures { OnOk result (text.new.items ≡ text.old.items ++ count_line free live) }
{
    push_bytes(text, b"free ")?;
    push_number(text, free as u64)?;
    push_bytes(text, b" of ")?;
    push_number(text, live as u64)?;
    push_bytes(text, b"\n")
}

/// The text of what carries nothing for a prefix of a class: both, each free link and router, and how many there are of how many that
/// live.
pub fn drain_text(
    alloc: Global,
    net: &Net,
    prefix: Prefix,
    class: Option<usize>,
    drain: &Drain,
) -> Result<Vec<u8>, NoMemory>
    ensures { IfOk result (λ v. (config : PlainConfig) → class ≡ class_of config prefix → v.items ≡ text_of_drain net.now config prefix drain.now) }
{
    let free = drain.free.as_slice();
    let mut text = Vec::new(alloc);
    push_head(&mut text, prefix, class)?;
    push_lines(&mut text, net, free)?;
    push_count(&mut text, free.len(), drain.live)?;
    Ok(text)
}
