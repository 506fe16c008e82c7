//! What was read so far, and what the next line makes of it.
ghost use Rattle.std.specs.Prelude.{◌≡◌, [], ◌∷◌, ◌++◌, IfOk, IfErr, Ok, Err};
ghost use Rattle.net_base.specs.Gives.{GivesUnless};
ghost use Rattle.net_base.specs.Steps.{◌>>=◌ as and_then, unless};
ghost use Rattle.config_reader.specs.Reading.{after as after_blocks};
ghost use Rattle.map_reader.specs.MapsReading.{opening, continues as continues_last, on_last, with_list, in_blocks, is_out, entries_of, is_number_of, with_entry, after_map};

use config_lines::Line;
use config_reader::{Misplaced, Reading, after, nothing_read};
use net_base::{List, Pattern};
use route_map_text::MapLine;
use route_maps::ListLine;
use std::alloc::{AllocError, Global};

/// What was read so far.
#[derive(Drop)]
pub struct MapsReading {
    /// The lines of each list.
    pub lists: List<List<ListLine>>,
    /// The routers, as a configuration is read. It has one class for each list, with the pattern of the list's first
    /// line, so that lists come in the order of classes and entries name them as they name classes.
    pub blocks: Reading,
}

/// Nothing was read but the first line.
pub fn no_line(alloc: Global) -> MapsReading
    ensures { result ≡ opening }
{
    MapsReading {
        lists: List::new(alloc),
        blocks: nothing_read(alloc),
    }
}

/// A value with what else was made, or why that wasn't. The value is dropped here and not where it stood, since the proof
/// of a drop in place goes through all its parts.
pub fn beside<T: Drop, U, E>(value: T, made: Result<U, E>) -> Result<(T, U), E>
    ensures value { IfOk result (λ both. both.0 ≡ value) }
    ensures made { IfOk result (λ both. made ≡ Ok both.1) }
    ensures fault { IfErr result (λ e. made ≡ Err e) }
{
    match made {
        Ok(other) => Ok((value, other)),
        Err(fault) => Err(fault),
    }
}

// Whether a line of the list with this number goes on with the last list: no router's line stood yet.
fn continues(number: Option<u32>, lists: usize, blocks: &Reading) -> bool
    ensures { result ≡ continues_last number lists blocks.now }
{
    match number {
        None => false,
        Some(n) => {
            n as usize == lists && n > 0 && blocks.opened.is_none() && blocks.routers.is_empty()
        }
    }
}

// The lists, the last of which has one line more.
fn add_to_last(
    lists: List<List<ListLine>>,
    line: ListLine,
) -> Result<List<List<ListLine>>, AllocError>
    ensures { IfOk result (λ l. l ≡ on_last lists line) }
{
    let mut all = lists.into_vec();
    match all.pop() {
        None => Ok(List::from_vec(all)),
        Some(mut last) => {
            last.push(line)?;
            all.push(last)?;
            Ok(List::from_vec(all))
        }
    }
}

// The patterns of a class with one pattern.
fn one_pattern(alloc: Global, pattern: Pattern) -> Result<List<Pattern>, AllocError>
    ensures { IfOk result (λ l. l ≡ pattern ∷ []) }
{
    let mut patterns = List::new(alloc);
    patterns.push(pattern)?;
    Ok(patterns)
}

// The lists with one more, which has one line.
fn with_new_list(
    alloc: Global,
    lists: List<List<ListLine>>,
    line: ListLine,
) -> Result<List<List<ListLine>>, AllocError>
    ensures { IfOk result (λ l. l ≡ lists ++ (line ∷ []) ∷ []) }
{
    let mut lists = lists;
    let mut lines = List::new(alloc);
    lines.push(line)?;
    lists.push(lines)?;
    Ok(lists)
}

// One line more of the last list.
fn continue_list(reading: MapsReading, line: ListLine) -> Result<MapsReading, Misplaced>
    ensures { GivesUnless Misplaced.NoMemory (λ r. r) result (Ok (record { lists = on_last reading.lists line; blocks = reading.blocks })) }
{
    let MapsReading { lists, blocks } = reading;
    let (blocks, lists) = beside(blocks, add_to_last(lists, line))?;
    Ok(MapsReading { lists, blocks })
}

// The blocks with the class that stands for one list more.
fn with_class(
    alloc: Global,
    blocks: Reading,
    number: Option<u32>,
    pattern: Pattern,
) -> Result<Reading, Misplaced>
    ensures { GivesUnless Misplaced.NoMemory (λ r. r) result (after_blocks blocks (Line.Class number (pattern ∷ []))) }
{
    let (blocks, patterns) = beside(blocks, one_pattern(alloc, pattern))?;
    after(alloc, blocks, Line::Class(number, patterns))
}

// The first line of the next list.
fn begin_list(
    alloc: Global,
    reading: MapsReading,
    number: Option<u32>,
    line: ListLine,
) -> Result<MapsReading, Misplaced>
    ensures { GivesUnless Misplaced.NoMemory (λ r. r) result
        (and_then (after_blocks reading.blocks (Line.Class number (line.pattern ∷ []))) (λ blocks. Ok (record { lists = reading.lists ++ (line ∷ []) ∷ []; blocks = blocks }))) }
{
    let MapsReading { lists, blocks } = reading;
    let blocks = with_class(alloc, blocks, number, line.pattern)?;
    let (blocks, lists) = beside(blocks, with_new_list(alloc, lists, line))?;
    Ok(MapsReading { lists, blocks })
}

// A line of the list with this number.
#[tactic(auto, unfolding(crate::specs::MapsReading::with_list))]
fn add_list_line(
    alloc: Global,
    reading: MapsReading,
    number: Option<u32>,
    line: ListLine,
) -> Result<MapsReading, Misplaced>
    ensures { GivesUnless Misplaced.NoMemory (λ r. r) result (with_list reading number line) }
{
    if continues(number, reading.lists.as_slice().len(), &reading.blocks) {
        return continue_list(reading, line);
    }
    begin_list(alloc, reading, number, line)
}

// A line of a router's block.
#[tactic(auto, unfolding(crate::specs::MapsReading::in_blocks))]
fn add_to_blocks(alloc: Global, reading: MapsReading, line: Line) -> Result<MapsReading, Misplaced>
    ensures { GivesUnless Misplaced.NoMemory (λ r. r) result (in_blocks reading line) }
{
    let MapsReading { lists, blocks } = reading;
    let blocks = after(alloc, blocks, line)?;
    Ok(MapsReading { lists, blocks })
}

// Whether the line is an export.
fn is_export(line: &Line) -> bool
    ensures { result ≡ is_out line.now }
{
    matches!(line, Line::Export(_))
}

// How many entries of a kind the neighbour's block has that is open.
fn count_of_entries(exports: bool, blocks: &Reading) -> usize
    ensures { result ≡ entries_of exports blocks.now }
{
    let Some(router) = &blocks.opened else {
        return 0;
    };
    let Some(block) = &router.block else {
        return 0;
    };
    if exports {
        block.exports.as_slice().len()
    } else {
        block.imports.as_slice().len()
    }
}

// Whether the number is that of the last of so many entries.
fn is_number(number: Option<u32>, count: usize) -> bool
    ensures { result ≡ is_number_of number count }
{
    match number {
        None => false,
        Some(k) => u128::from(k) == 10 * count as u128,
    }
}

// What was read, where the last entry has this number.
fn numbered(
    reading: MapsReading,
    exports: bool,
    number: Option<u32>,
) -> Result<MapsReading, Misplaced>
    ensures { result ≡ and_then (unless Misplaced.Order (is_number_of number (entries_of exports reading.blocks))) (λ _. Ok reading) }
{
    is_number(number, count_of_entries(exports, &reading.blocks))
        .then_some(reading)
        .ok_or(Misplaced::Order)
}

// An entry with this number.
#[tactic(auto, unfolding(crate::specs::MapsReading::with_entry))]
fn add_entry(
    alloc: Global,
    reading: MapsReading,
    number: Option<u32>,
    line: Line,
) -> Result<MapsReading, Misplaced>
    ensures { GivesUnless Misplaced.NoMemory (λ r. r) result (with_entry reading number line) }
{
    let exports = is_export(&line);
    let next = add_to_blocks(alloc, reading, line)?;
    numbered(next, exports, number)
}

/// What was read so far with one more line, or why the line can't follow.
pub fn after_line(
    alloc: Global,
    reading: MapsReading,
    line: MapLine,
) -> Result<MapsReading, Misplaced>
    ensures { GivesUnless Misplaced.NoMemory (λ r. r) result (after_map reading line) }
{
    match line {
        MapLine::List(number, line) => add_list_line(alloc, reading, number, line),
        MapLine::Entry(number, line) => add_entry(alloc, reading, number, line),
        MapLine::Block(line) => add_to_blocks(alloc, reading, line),
    }
}
