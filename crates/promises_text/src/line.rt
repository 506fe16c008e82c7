//! A line, and how it ends.
ghost use Rattle.std.specs.Prelude.{◌≡◌, ◌++◌, IfOk, OnOk};
ghost use Rattle.promises_text.specs.Texts.{line_of, rank_tail};

use input_output::NoMemory;
use std::alloc::Global;
use text_parts::{push_bytes, push_number};

/// Adds a line of a head, names and a tail; none where there is no name.
#[tactic(auto, unfolding(crate::specs::Texts::line_of))]
pub fn push_line(text: &mut Vec<u8>, head: &[u8], names: &[u8], tail: &[u8]) -> Result<(), NoMemory>
    ensures { OnOk result (text.new.items ≡ text.old.items ++ line_of head.now names.now tail.now) }
{
    if names.len() == 0 {
        return Ok(());
    }
    push_bytes(text, head)?;
    push_bytes(text, names)?;
    push_bytes(text, tail)
}

/// The end of the line of a rank.
#[tactic(auto, unfolding(crate::specs::Texts::rank_tail))]
pub fn tail_of(alloc: Global, rank: u64) -> Result<Vec<u8>, NoMemory>
    ensures { IfOk result (λ tail. tail.items ≡ rank_tail rank) }
{
    let mut tail = Vec::new(alloc);
    push_bytes(&mut tail, b" rank ")?;
    push_number(&mut tail, rank)?;
    push_bytes(&mut tail, b"\n")?;
    Ok(tail)
}
