//! A text is read line by line.
ghost use Rattle.std.specs.Prelude.{◌≡◌, ◌==◌, ◌&&◌, ◌<◌, ◌^◌, None, Ok, IfOk, is_none, length};
ghost use Rattle.std.specs.List.{slice_split};
ghost use Rattle.net_base.specs.Gives.{GivesUnless};
ghost use Rattle.config_reader.specs.Reading.{after as after_line};
ghost use Rattle.config_reader.specs.Text.{read_at, placed_at, with_line, finished, behind_heading, spelled_in, spelled};
ghost use Rattle.std.specs.Str.{bytes_eq};
ghost use Rattle.config_base.specs.Configs.{PlainConfig, IsConfig};
ghost use Rattle.config_text.specs.Spelled.{SpellsIn, Spells};
ghost use Rattle.config_lines.specs.Editions.{first_line};
ghost use Rattle.config_lines.specs.Lines.{line_of};
ghost use Rattle.config_lines.specs.declared.edition.Edition.TheVariants.{First};

use crate::fault::ConfigFault;
use crate::reading::{Misplaced, Reading, follow, nothing_read};
use config_base::Config;
use config_lines::{Edition, Line, LineFault, halves, read_line};
use std::alloc::Global;

// The line with this number.
fn line_at(
    alloc: Global,
    edition: Edition,
    number: u32,
    bytes: &[u8],
    classes: u32,
) -> Result<Line, ConfigFault>
    ensures { GivesUnless ConfigFault.NoMemory (λ l. l) result (read_at number (line_of edition bytes.now classes)) }
{
    match read_line(alloc, edition, bytes, classes) {
        Ok(line) => Ok(line),
        Err(LineFault::Form) => Err(ConfigFault::Line(number)),
        Err(LineFault::Number) => Err(ConfigFault::Number(number)),
        Err(LineFault::NoMemory) => Err(ConfigFault::NoMemory),
    }
}

// Reads one line more, which has this number.
fn follow_at(
    alloc: Global,
    number: u32,
    reading: &mut Reading,
    line: Line,
) -> Result<(), ConfigFault>
    ensures { GivesUnless ConfigFault.NoMemory (λ _. reading.new) result (placed_at number (after_line reading.old line)) }
{
    match follow(alloc, reading, line) {
        Ok(()) => Ok(()),
        Err(Misplaced::Order) => Err(ConfigFault::Order(number)),
        Err(Misplaced::Twice) => Err(ConfigFault::Twice(number)),
        Err(Misplaced::NoMemory) => Err(ConfigFault::NoMemory),
    }
}

// How many classes were read.
fn count_of_classes(reading: &Reading) -> u32
    requires { length reading.now.classes < 2 ^ 32 }
    ensures { result ≡ length reading.now.classes }
{
    reading.classes.as_slice().len() as u32
}

// Reads the bytes of one line more, which has this number.
#[tactic(auto, unfolding(crate::specs::Text::with_line))]
fn take_line(
    alloc: Global,
    edition: Edition,
    number: u32,
    reading: &mut Reading,
    bytes: &[u8],
) -> Result<(), ConfigFault>
    requires { length reading.old.classes < 2 ^ 32 }
    ensures { GivesUnless ConfigFault.NoMemory (λ _. reading.new) result (with_line edition number reading.old bytes.now) }
{
    let classes = count_of_classes(reading);
    let line = line_at(alloc, edition, number, bytes, classes)?;
    follow_at(alloc, number, reading, line)
}

// The configuration that was read, which keeps the rules.
fn config_of(reading: Reading) -> Config
    requires { IsConfig (record { classes = reading.classes; routers = reading.routers }) }
    ensures { result ≡ record { classes = reading.classes; routers = reading.routers } }
{
    Config::new(reading.classes, reading.routers.into_list())
}

// Whether nothing is open and nothing follows the last line feed.
fn is_whole(reading: &Reading, rest: &[u8]) -> bool
    ensures { result ≡ (is_none reading.now.opened && length rest.now == 0) }
{
    reading.opened.is_none() && rest.is_empty()
}

// The configuration that was read, where nothing is open and nothing follows the last line feed.
#[tactic(auto, unfolding(crate::specs::Text::finished))]
fn finish(reading: Reading, rest: &[u8]) -> Result<Config, ConfigFault>
    requires { reading.opened ≡ None → IsConfig (record { classes = reading.classes; routers = reading.routers }) }
    ensures { GivesUnless ConfigFault.NoMemory (λ c. c) result (finished reading rest.now) }
{
    let whole = is_whole(&reading, rest)
        .then_some(reading)
        .ok_or(ConfigFault::Unfinished)?;
    Ok(config_of(whole))
}

// The configuration of the bytes behind the first line, which has the number 1.
fn read_behind_heading(alloc: Global, edition: Edition, bytes: &[u8]) -> Result<Config, ConfigFault>
    requires { length bytes.now < 4294967294 }
    ensures { GivesUnless ConfigFault.NoMemory (λ c. c) result (behind_heading edition (slice_split (λ b. b == 10) bytes.now)) }
{
    let mut reading = nothing_read(alloc);
    let mut number = 2;
    let mut rest = bytes;
    while let Some((line, more)) = halves(b'\n', rest) {
        take_line(alloc, edition, number, &mut reading, line)?;
        number += 1;
        rest = more;
    }
    finish(reading, rest)
}

// Whether a line is the first one of every text of this edition.
fn is_heading(edition: Edition, line: &[u8]) -> bool
    ensures { result ≡ bytes_eq line.now (first_line edition) }
{
    line == edition.first_line()
}

// The configuration of the bytes as a text of this edition, or its first fault.
fn read_text(alloc: Global, edition: Edition, bytes: &[u8]) -> Result<Config, ConfigFault>
    requires { length bytes.now < 4294967295 }
    ensures { GivesUnless ConfigFault.NoMemory (λ c. c) result (spelled_in edition bytes.now) }
{
    let Some((first, more)) = halves(b'\n', bytes) else {
        return Err(ConfigFault::Version);
    };
    if !is_heading(edition, first) {
        return Err(ConfigFault::Version);
    }
    read_behind_heading(alloc, edition, more)
}

// The configuration that the bytes spell in this edition, or the first fault of the text.
fn read_edition(alloc: Global, edition: Edition, bytes: &[u8]) -> Result<Config, ConfigFault>
    requires { length bytes.now < 4294967295 }
    ensures exact { GivesUnless ConfigFault.NoMemory (λ c. c) result (spelled_in edition bytes.now) }
    ensures spells { IfOk result (λ c. SpellsIn edition bytes.now c) }
    ensures only { (c : PlainConfig) → SpellsIn edition bytes.now c → GivesUnless ConfigFault.NoMemory (λ d. d) result (Ok c) }
{
    read_text(alloc, edition, bytes)
}

/// The configuration that the bytes spell, or the first fault of the text: version first; then line by line, in
/// each line its form, its numbers, its order and what stands twice; last whether the text is finished. It goes from
/// line to line, and takes memory for what was read alone. A text of the first edition is refused by its version.
pub fn read_config(alloc: Global, bytes: &[u8]) -> Result<Config, ConfigFault>
    requires { length bytes.now < 4294967295 }
    ensures exact { GivesUnless ConfigFault.NoMemory (λ c. c) result (spelled bytes.now) }
    ensures spells { IfOk result (λ c. Spells bytes.now c) }
    ensures only { (c : PlainConfig) → Spells bytes.now c → GivesUnless ConfigFault.NoMemory (λ d. d) result (Ok c) }
{
    read_edition(alloc, Edition::Second, bytes)
}

/// The configuration that the bytes spell as a text of the first edition, or the first fault of the text, judged in
/// the order of `read_config`.
pub fn read_config_1(alloc: Global, bytes: &[u8]) -> Result<Config, ConfigFault>
    requires { length bytes.now < 4294967295 }
    ensures exact { GivesUnless ConfigFault.NoMemory (λ c. c) result (spelled_in First bytes.now) }
    ensures spells { IfOk result (λ c. SpellsIn First bytes.now c) }
    ensures only { (c : PlainConfig) → SpellsIn First bytes.now c → GivesUnless ConfigFault.NoMemory (λ d. d) result (Ok c) }
{
    read_edition(alloc, Edition::First, bytes)
}
