//! Every command with each read and each write failing in turn, and sinks that take little at a time.
use crate::commands::{COMPILE, FAULTS, ROWS, Row};
use crate::runs::{End, Failing, TAKEN, end_of};
use input_output::NoMemory;
use propane_run::Status;
use std::alloc::Global;
use test_networks::TWO_ROUTERS_CONFIG;

// How many writes bytes take.
fn writes(bytes: &[u8]) -> usize {
    bytes.len().div_ceil(TAKEN)
}

// Whether so many writes took this of the bytes of a whole run, and nothing else.
fn is_front(taken: &[u8], writes: usize, whole: &[u8]) -> bool {
    taken.len() == writes.wrapping_mul(TAKEN) && whole.starts_with(taken)
}

// What is told where the text of this number can't be read.
fn unread(number: usize) -> &'static str {
    match number {
        0 => "propane: cannot read first\n",
        1 => "propane: cannot read second\n",
        2 => "propane: cannot read third\n",
        3 => "propane: cannot read fourth\n",
        4 => "propane: cannot read fifth\n",
        _ => "propane: cannot read sixth\n",
    }
}

// Whether the reading of this text that fails is told with its name, and nothing else is written.
fn is_read_told(alloc: Global, row: &Row, number: usize) -> Result<bool, NoMemory> {
    let end = end_of(alloc, row, Failing::Read(number))?;
    Ok(end.tells(Status::ReadFault, "", unread(number)))
}

// Whether a write to `out` that fails after others leaves what they took, and nothing else.
fn is_out_kept(alloc: Global, row: &Row, before: usize, whole: &[u8]) -> Result<bool, NoMemory> {
    let end = end_of(alloc, row, Failing::Out(before))?;
    Ok(
        end.status == Status::WriteFault
            && is_front(end.out(), before, whole)
            && end.err().is_empty(),
    )
}

// Whether a write to `err` that fails after others leaves what they took, and nothing else.
fn is_err_kept(alloc: Global, row: &Row, before: usize, whole: &[u8]) -> Result<bool, NoMemory> {
    let end = end_of(alloc, row, Failing::Err(before))?;
    Ok(
        end.status == Status::WriteFault
            && end.out().is_empty()
            && is_front(end.err(), before, whole),
    )
}

// Whether each read that fails is told.
fn are_reads_told(alloc: Global, row: &Row) -> Result<bool, NoMemory> {
    for number in 0..row.1.len() {
        if !is_read_told(alloc, row, number)? {
            return Ok(false);
        }
    }
    Ok(true)
}

// Whether each write to `out` that fails leaves what was taken before.
fn are_outs_kept(alloc: Global, row: &Row, whole: &[u8]) -> Result<bool, NoMemory> {
    for before in 0..writes(whole) {
        if !is_out_kept(alloc, row, before, whole)? {
            return Ok(false);
        }
    }
    Ok(true)
}

// Whether each write to `err` that fails does.
fn are_errs_kept(alloc: Global, row: &Row, whole: &[u8]) -> Result<bool, NoMemory> {
    for before in 0..writes(whole) {
        if !is_err_kept(alloc, row, before, whole)? {
            return Ok(false);
        }
    }
    Ok(true)
}

// Whether a run ends as the whole one where this call fails.
fn is_whole(alloc: Global, row: &Row, failing: Failing, whole: &End) -> Result<bool, NoMemory> {
    Ok(end_of(alloc, row, failing)?.is_like(whole))
}

// Whether a run ends the same where a call fails that isn't made: the next one of its inputs, of `out` or of `err`.
fn are_calls_few(alloc: Global, row: &Row, whole: &End) -> Result<bool, NoMemory> {
    let reads = row.1.len();
    let (out, err) = (writes(whole.out()), writes(whole.err()));
    Ok(
        is_whole(alloc, row, Failing::Read(reads), whole)?
            && is_whole(alloc, row, Failing::Out(out), whole)?
            && is_whole(alloc, row, Failing::Err(err), whole)?,
    )
}

// Whether a run that ended thus ends as it is to where calls fail.
fn is_right_after(alloc: Global, row: &Row, whole: &End) -> Result<bool, NoMemory> {
    Ok(
        whole.status == row.3
            && are_reads_told(alloc, row)?
            && are_outs_kept(alloc, row, whole.out())?
            && are_errs_kept(alloc, row, whole.err())?
            && are_calls_few(alloc, row, whole)?,
    )
}

fn is_right(alloc: Global, row: &Row) -> Result<bool, NoMemory> {
    let whole = end_of(alloc, row, Failing::Nothing)?;
    is_right_after(alloc, row, &whole)
}

/// The place of the first run that ends otherwise, or does where a read or a write fails.
pub fn wrong_run(alloc: Global) -> Result<Option<usize>, NoMemory> {
    for number in 0..ROWS.len() {
        if !is_right(alloc, &ROWS[number])? {
            return Ok(Some(number));
        }
    }
    Ok(None)
}

// Whether a run tells this line alone.
fn is_line_told(alloc: Global, row: &Row, line: &str) -> Result<bool, NoMemory> {
    Ok(end_of(alloc, row, Failing::Nothing)?.tells(row.3, "", line))
}

/// The place of the first fault of one of two texts that is told otherwise.
pub fn wrong_fault(alloc: Global) -> Result<Option<usize>, NoMemory> {
    for number in 0..FAULTS.len() {
        let (row, line) = &FAULTS[number];
        if !is_line_told(alloc, row, line)? {
            return Ok(Some(number));
        }
    }
    Ok(None)
}

/// Whether the configuration of two routers is told, in 86 writes.
pub fn is_written_in_pieces(alloc: Global) -> Result<bool, NoMemory> {
    let end = end_of(alloc, &COMPILE, Failing::Nothing)?;
    Ok(end.tells(Status::Done, TWO_ROUTERS_CONFIG, "") && writes(end.out()) == 86)
}
