//! Rows of ranks with their walks. Each `push_` function adds a text to the end of another.
ghost use Rattle.std.specs.Prelude.{◌≡◌, ◌++◌, OnOk};
ghost use Rattle.std.specs.List.{flat_map};
ghost use Rattle.outcome_report.specs.Lines.{next_name};
ghost use Rattle.compare_lines.specs.Rows.{number_text, row_line, row_lines, walk_text, walk_word};

use compare_base::Row;
use input_output::NoMemory;
use net_base::{List, Loc, Net};
use outcome_report::push_next;
use policy_base::is_loop_free;
use text_parts::{push_bytes, push_number};

/// Adds the number of a statement or a rank, where there is one.
pub fn push_number_or_none(text: &mut Vec<u8>, number: Option<u32>) -> Result<(), NoMemory>
    ensures { OnOk result (text.new.items ≡ text.old.items ++ number_text number) }
{
    match number {
        None => push_bytes(text, b"none"),
        Some(number) => push_number(text, u64::from(number)),
    }
}

// Adds the names of the places of a walk.
fn push_places(text: &mut Vec<u8>, net: &Net, walk: &[Loc]) -> Result<(), NoMemory>
    ensures { OnOk result (text.new.items ≡ text.old.items ++ flat_map (next_name net.now) walk.now) }
{
    for place in walk {
        push_next(text, net, *place)?;
    }
    Ok(())
}

// Adds the word for a walk, which may be a path.
fn push_word(text: &mut Vec<u8>, walk: &[Loc]) -> Result<(), NoMemory>
    ensures { OnOk result (text.new.items ≡ text.old.items ++ walk_word walk.now) }
{
    if is_loop_free(walk) {
        push_bytes(text, b" path")
    } else {
        push_bytes(text, b" walk")
    }
}

// Adds a walk, and whether it is a path.
#[tactic(auto, unfolding(crate::specs::Rows::walk_text))]
fn push_walk(text: &mut Vec<u8>, net: &Net, walk: &[Loc]) -> Result<(), NoMemory>
    ensures { OnOk result (text.new.items ≡ text.old.items ++ walk_text net.now walk.now) }
{
    push_word(text, walk)?;
    push_places(text, net, walk)?;
    push_bytes(text, b"\n")
}

// Adds a row of ranks with its walk.
#[tactic(auto, unfolding(crate::specs::Rows::row_line))]
fn push_row(text: &mut Vec<u8>, net: &Net, row: Row, walk: &[Loc]) -> Result<(), NoMemory>
    ensures { OnOk result (text.new.items ≡ text.old.items ++ row_line net.now row walk.now) }
{
    push_bytes(text, b"rank ")?;
    push_number_or_none(text, row.old)?;
    push_bytes(text, b" now ")?;
    push_number_or_none(text, row.new)?;
    push_walk(text, net, walk)
}

/// Adds rows of ranks with their walks.
#[tactic(auto, using(crate::proofs::RowsTold::row_over, crate::proofs::RowsTold::row_none))]
pub fn push_rows(
    text: &mut Vec<u8>,
    net: &Net,
    rows: &[Row],
    walks: &[List<Loc>],
) -> Result<(), NoMemory>
    ensures { OnOk result (text.new.items ≡ text.old.items ++ row_lines net.now rows.now walks.now) }
{
    for i in 0..rows.len().min(walks.len()) {
        push_row(text, net, rows[i], walks[i].as_slice())?;
    }
    Ok(())
}
