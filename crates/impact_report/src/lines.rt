//! The lines of an impact. Each `push_` function adds a text to the end of another.
ghost use Rattle.std.specs.Prelude.{◌≡◌, ◌++◌, IfOk, OnOk, filter, length};
ghost use Rattle.std.specs.List.{flat_map, zip};
ghost use Rattle.impact_report.specs.Texts.{base_line, changes, changes_or_moves, count_line, counts_text, cut_text, entry_line, moves_text, rank_text, row_text};

use impact_law::{Cut, CutRow, Moves, SourceRank};
use input_output::NoMemory;
use net_base::Net;
use outcome_report::{push_next, push_source};
use text_parts::{push_bytes, push_number};

// Adds a rank, or that there is none.
fn push_rank(text: &mut Vec<u8>, rank: Option<u32>) -> Result<(), NoMemory>
    ensures { OnOk result (text.new.items ≡ text.old.items ++ rank_text rank) }
{
    match rank {
        None => push_bytes(text, b" none"),
        Some(rank) => {
            push_bytes(text, b" rank ")?;
            push_number(text, u64::from(rank))
        }
    }
}

// Adds the line of a source with its best rank.
#[tactic(auto, unfolding(crate::specs::Texts::entry_line))]
fn push_entry(text: &mut Vec<u8>, net: &Net, entry: &SourceRank) -> Result<(), NoMemory>
    ensures { OnOk result (text.new.items ≡ text.old.items ++ entry_line net.now entry.now) }
{
    push_source(text, net, entry.router, entry.peer)?;
    push_rank(text, entry.rank)?;
    push_bytes(text, b"\n")
}

// Adds the lines of sources.
fn push_entries(text: &mut Vec<u8>, net: &Net, entries: &[SourceRank]) -> Result<(), NoMemory>
    ensures { OnOk result (text.new.items ≡ text.old.items ++ flat_map (entry_line net.now) entries.now) }
{
    for entry in entries {
        push_entry(text, net, entry)?;
    }
    Ok(())
}

// Adds the line of a source with its best rank where nothing is cut.
fn push_base_entry(text: &mut Vec<u8>, net: &Net, entry: &SourceRank) -> Result<(), NoMemory>
    ensures { OnOk result (text.new.items ≡ text.old.items ++ base_line net.now entry.now) }
{
    push_bytes(text, b"base ")?;
    push_entry(text, net, entry)
}

/// Adds the lines of sources where nothing is cut.
pub fn push_base(text: &mut Vec<u8>, net: &Net, base: &[SourceRank]) -> Result<(), NoMemory>
    ensures { OnOk result (text.new.items ≡ text.old.items ++ flat_map (base_line net.now) base.now) }
{
    for entry in base {
        push_base_entry(text, net, entry)?;
    }
    Ok(())
}

// Adds what is cut.
fn push_cut(text: &mut Vec<u8>, net: &Net, cut: Cut) -> Result<(), NoMemory>
    ensures { OnOk result (text.new.items ≡ text.old.items ++ cut_text net.now cut) }
{
    match cut {
        Cut::Link(a, b) => {
            push_bytes(text, b"cut link")?;
            push_next(text, net, a)?;
            push_next(text, net, b)
        }
        Cut::Router(router) => {
            push_bytes(text, b"cut router")?;
            push_next(text, net, router)
        }
    }
}

// Whether a cut changes a rank.
fn changes_rank(row: &CutRow) -> bool
    ensures { result ≡ changes row.now }
{
    !row.changed.as_slice().is_empty()
}

// Adds the lines of a cut and of what it changes.
#[tactic(auto, unfolding(crate::specs::Texts::row_text))]
fn push_row(text: &mut Vec<u8>, net: &Net, row: &CutRow) -> Result<(), NoMemory>
    ensures { OnOk result (text.new.items ≡ text.old.items ++ row_text net.now row.now) }
{
    push_cut(text, net, row.cut)?;
    push_bytes(text, b"\n")?;
    push_entries(text, net, row.changed.as_slice())
}

/// Adds the lines of the rows that change something, and returns how many these are.
pub fn push_rows(text: &mut Vec<u8>, net: &Net, rows: &[CutRow]) -> Result<usize, NoMemory>
    ensures text { OnOk result (text.new.items ≡ text.old.items ++ flat_map (row_text net.now) (filter changes rows.now)) }
    ensures count { IfOk result (λ told. told ≡ length (filter changes rows.now)) }
{
    let mut told = 0;
    for row in rows {
        if changes_rank(row) {
            push_row(text, net, row)?;
            told += 1;
        }
    }
    Ok(told)
}

// Adds how many routers a cut moves to another route, and how many to another multipath set.
#[tactic(auto, unfolding(crate::specs::Texts::counts_text))]
fn push_moved(text: &mut Vec<u8>, moves: Moves) -> Result<(), NoMemory>
    ensures { OnOk result (text.new.items ≡ text.old.items ++ counts_text moves) }
{
    push_bytes(text, b" moves ")?;
    push_number(text, u64::from(moves.routes))?;
    push_bytes(text, b" shifts ")?;
    push_number(text, u64::from(moves.sets))?;
    push_bytes(text, b"\n")
}

// Adds the lines of a cut, of how many routers it moves and of what it changes.
#[tactic(auto, unfolding(crate::specs::Texts::moves_text))]
fn push_moves(text: &mut Vec<u8>, net: &Net, row: &CutRow, moves: Moves) -> Result<(), NoMemory>
    ensures { OnOk result (text.new.items ≡ text.old.items ++ moves_text net.now (row.now, moves)) }
{
    push_cut(text, net, row.cut)?;
    push_moved(text, moves)?;
    push_entries(text, net, row.changed.as_slice())
}

// Whether a cut changes a rank or moves a router.
fn has_effect(row: &CutRow, moves: Moves) -> bool
    ensures { result ≡ changes_or_moves (row.now, moves) }
{
    changes_rank(row) || moves.routes != 0 || moves.sets != 0
}

/// Adds the lines of the rows that change or move something, each with how many routers it moves, and returns how many these are.
pub fn push_moving_rows(
    text: &mut Vec<u8>,
    net: &Net,
    rows: &[CutRow],
    moves: &[Moves],
) -> Result<usize, NoMemory>
    requires { length moves.now ≡ length rows.now }
    ensures text { OnOk result (text.new.items ≡ text.old.items ++ flat_map (moves_text net.now) (filter changes_or_moves (zip rows.now moves.now))) }
    ensures count { IfOk result (λ told. told ≡ length (filter changes_or_moves (zip rows.now moves.now))) }
{
    let mut told = 0;
    for i in 0..rows.len() {
        let row = &rows[i];
        let count = moves[i];
        if has_effect(row, count) {
            push_moves(text, net, row, count)?;
            told += 1;
        }
    }
    Ok(told)
}

/// Adds the line that counts cuts, and those of them that are told.
#[tactic(auto, unfolding(crate::specs::Texts::count_line))]
pub fn push_counts(text: &mut Vec<u8>, cuts: usize, told: usize) -> Result<(), NoMemory>
    ensures { OnOk result (text.new.items ≡ text.old.items ++ count_line cuts told) }
{
    push_bytes(text, b"cuts ")?;
    push_number(text, cuts as u64)?;
    push_bytes(text, b" changed ")?;
    push_number(text, told as u64)?;
    push_bytes(text, b"\n")
}
