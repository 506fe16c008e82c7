//! A text is read line by line.
ghost use Rattle.std.specs.Prelude.{◌≡◌, ◌==◌, ◌<◌, ◌^◌, ◌&&◌, is_none, None, Ok, IfOk, length};
ghost use Rattle.std.specs.List.{slice_split};
ghost use Rattle.std.specs.Str.{bytes_eq};
ghost use Rattle.net_base.specs.Gives.{GivesUnless};
ghost use Rattle.route_maps.specs.Maps.{PlainMaps, IsMaps};
ghost use Rattle.route_map_text.specs.MapLines.{map_line_of};
ghost use Rattle.route_map_text.specs.MapsLines.{first_line};
ghost use Rattle.route_map_text.specs.MapsSpelled.{Spells};
ghost use Rattle.map_reader.specs.MapsReading.{after_map};
ghost use Rattle.map_reader.specs.MapsRead.{read_at, placed_at, with_line, finished, behind_heading, spelled};

use crate::MapsFault;
use crate::reading::{MapsReading, after_line, beside, no_line};
use config_base::RouterConfig;
use config_lines::{LineFault, halves};
use config_reader::{Misplaced, Reading};
use net_base::List;
use route_map_text::{MapLine, read_map_line};
use route_maps::Maps;
use std::alloc::Global;

// The line with this number.
fn line_at(number: u32, bytes: &[u8], lists: u32) -> Result<MapLine, MapsFault>
    ensures { result ≡ read_at number (map_line_of bytes.now lists) }
{
    match read_map_line(bytes, lists) {
        Ok(line) => Ok(line),
        Err(LineFault::Form) => Err(MapsFault::Line(number)),
        Err(LineFault::Number) => Err(MapsFault::Number(number)),
        Err(LineFault::NoMemory) => Err(MapsFault::NoMemory),
    }
}

// What was read with one line more, which has this number.
fn after_at(
    alloc: Global,
    number: u32,
    reading: MapsReading,
    line: MapLine,
) -> Result<MapsReading, MapsFault>
    ensures { GivesUnless MapsFault.NoMemory (λ r. r) result (placed_at number (after_map reading line)) }
{
    match after_line(alloc, reading, line) {
        Ok(next) => Ok(next),
        Err(Misplaced::Order) => Err(MapsFault::Order(number)),
        Err(Misplaced::Twice) => Err(MapsFault::Twice(number)),
        Err(Misplaced::NoMemory) => Err(MapsFault::NoMemory),
    }
}

// What was read with the bytes of one line more, which has this number.
#[tactic(auto, unfolding(crate::specs::MapsRead::with_line))]
fn take_line(
    alloc: Global,
    number: u32,
    reading: MapsReading,
    bytes: &[u8],
) -> Result<MapsReading, MapsFault>
    requires { length reading.lists < 2 ^ 32 }
    ensures { GivesUnless MapsFault.NoMemory (λ r. r) result (with_line number reading bytes.now) }
{
    let lists = reading.lists.as_slice().len() as u32;
    let (reading, line) = beside(reading, line_at(number, bytes, lists))?;
    after_at(alloc, number, reading, line)
}

// Whether nothing is open and nothing follows the last line feed.
fn is_whole(reading: &MapsReading, rest: &[u8]) -> bool
    ensures { result ≡ (is_none reading.now.blocks.opened && length rest.now == 0) }
{
    reading.blocks.opened.is_none() && rest.is_empty()
}

// The routers whose blocks are read. What is open is dropped by a call, since the proof of a drop in place goes through
// all its parts.
fn read_routers(blocks: Reading) -> List<RouterConfig>
    ensures { result ≡ blocks.routers }
{
    drop(blocks.opened);
    blocks.routers.into_list()
}

// The maps that were read, where nothing is open and nothing follows the last line feed.
#[tactic(auto, unfolding(crate::specs::MapsRead::finished))]
fn finish(reading: MapsReading, rest: &[u8]) -> Result<Maps, MapsFault>
    requires { reading.blocks.opened ≡ None → IsMaps (record { lists = reading.lists; routers = reading.blocks.routers }) }
    ensures { GivesUnless MapsFault.NoMemory (λ m. m) result (finished reading rest.now) }
{
    let MapsReading { lists, blocks } = is_whole(&reading, rest)
        .then_some(reading)
        .ok_or(MapsFault::Unfinished)?;
    Ok(Maps::new(lists, read_routers(blocks)))
}

// The maps of the bytes behind the first line, which has the number 1.
fn read_behind_heading(alloc: Global, bytes: &[u8]) -> Result<Maps, MapsFault>
    requires { length bytes.now < 4294967294 }
    ensures { GivesUnless MapsFault.NoMemory (λ m. m) result (behind_heading (slice_split (λ b. b == 10) bytes.now)) }
{
    let mut reading = no_line(alloc);
    let mut number = 2;
    let mut rest = bytes;
    while let Some((line, more)) = halves(b'\n', rest) {
        reading = take_line(alloc, number, reading, line)?;
        number += 1;
        rest = more;
    }
    finish(reading, rest)
}

// Whether a line is the first one of every text.
fn is_heading(line: &[u8]) -> bool
    ensures { result ≡ bytes_eq line.now first_line }
{
    line == b"propane-maps 1".as_slice()
}

// The maps of the bytes, or the first fault of the text.
fn read_text(alloc: Global, bytes: &[u8]) -> Result<Maps, MapsFault>
    requires { length bytes.now < 4294967295 }
    ensures { GivesUnless MapsFault.NoMemory (λ m. m) result (spelled bytes.now) }
{
    let Some((first, more)) = halves(b'\n', bytes) else {
        return Err(MapsFault::Version);
    };
    if !is_heading(first) {
        return Err(MapsFault::Version);
    }
    read_behind_heading(alloc, more)
}

/// The maps that the bytes spell, or the first fault of the text: version first; then line by line, in each line its
/// form, its numbers, its order and what stands twice; last whether the text is finished. It goes from line to line,
/// and takes memory for what was read alone.
pub fn read_maps(alloc: Global, bytes: &[u8]) -> Result<Maps, MapsFault>
    requires { length bytes.now < 4294967295 }
    ensures exact { GivesUnless MapsFault.NoMemory (λ m. m) result (spelled bytes.now) }
    ensures spells { IfOk result (λ m. Spells bytes.now m) }
    ensures only { (m : PlainMaps) → Spells bytes.now m → GivesUnless MapsFault.NoMemory (λ n. n) result (Ok m) }
{
    read_text(alloc, bytes)
}
