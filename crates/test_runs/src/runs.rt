//! Runs over texts in memory, of which one call may fail.
use crate::commands::Row;
use crate::texts::Text;
use input_output::{MemInputs, MemSink, NoMemory};
use propane_run::{Status, run};
use std::alloc::Global;

/// How many bytes a sink takes at once.
pub(crate) const TAKEN: usize = 3;

// How many bytes a sink takes in all.
const ROOM: usize = 16_777_216;

/// Which call of the inputs, of `out` or of `err` fails: that after so many others.
#[derive(Clone, Copy)]
pub(crate) enum Failing {
    Nothing,
    Read(usize),
    Out(usize),
    Err(usize),
}

// The number of the call after so many others.
fn call_after(before: usize) -> u64 {
    (before as u64).saturating_add(1)
}

/// Inputs and sinks in memory.
#[derive(Drop)]
pub(crate) struct Devices {
    pub(crate) inputs: MemInputs,
    pub(crate) out: MemSink,
    pub(crate) err: MemSink,
}

impl Devices {
    // Inputs that hold nothing, and sinks that took nothing.
    fn new(alloc: Global) -> Result<Devices, NoMemory> {
        let out = MemSink::new(alloc, ROOM, TAKEN)?;
        let err = MemSink::new(alloc, ROOM, TAKEN)?;
        let inputs = MemInputs::new(alloc);
        Ok(Devices { inputs, out, err })
    }

    // From now on the inputs hold these texts.
    fn hold(&mut self, texts: &[Text]) -> Result<(), NoMemory> {
        for number in 0..texts.len() {
            self.inputs.hold(name(number), texts[number].bytes())?;
        }
        Ok(())
    }

    // From now on this call fails.
    fn fail(&mut self, failing: Failing) -> Result<(), NoMemory> {
        match failing {
            Failing::Nothing => Ok(()),
            Failing::Read(before) => self.inputs.fail(call_after(before)),
            Failing::Out(before) => self.out.fail(call_after(before)),
            Failing::Err(before) => self.err.fail(call_after(before)),
        }
    }
}

// The name of the text of this number in a run.
fn name(number: usize) -> &'static str {
    match number {
        0 => "first",
        1 => "second",
        2 => "third",
        3 => "fourth",
        4 => "fifth",
        _ => "sixth",
    }
}

// A word onto those that came before.
fn push(alloc: Global, words: &mut Vec<String>, word: &str) -> Result<(), NoMemory> {
    words.push(String::from_str(alloc, word)?)?;
    Ok(())
}

// The words of a run onto those that came before.
fn push_words(alloc: Global, words: &mut Vec<String>, row: &Row) -> Result<(), NoMemory> {
    push(alloc, words, row.0)?;
    for number in 0..row.1.len() {
        push(alloc, words, name(number))?;
    }
    for word in row.2 {
        push(alloc, words, word)?;
    }
    Ok(())
}

/// The words of a run.
pub(crate) fn words_of(alloc: Global, row: &Row) -> Result<Vec<String>, NoMemory> {
    let mut words = Vec::new(alloc);
    push_words(alloc, &mut words, row)?;
    Ok(words)
}

/// The texts of a run in memory, where one call fails.
pub(crate) fn devices_of(alloc: Global, row: &Row, failing: Failing) -> Result<Devices, NoMemory> {
    let mut devices = Devices::new(alloc)?;
    devices.hold(row.1)?;
    devices.fail(failing)?;
    Ok(devices)
}

/// How a run ended, and what is left of its inputs and sinks.
#[derive(Drop)]
pub(crate) struct End {
    pub(crate) status: Status,
    devices: Devices,
}

impl End {
    /// What `out` took.
    pub(crate) fn out(&self) -> &[u8] {
        self.devices.out.taken()
    }

    /// What `err` took.
    pub(crate) fn err(&self) -> &[u8] {
        self.devices.err.taken()
    }

    /// Whether the run ended with this status, and its sinks took this and nothing else.
    pub(crate) fn tells(&self, status: Status, out: &str, err: &str) -> bool {
        self.status == status && self.out() == out.as_bytes() && self.err() == err.as_bytes()
    }

    /// Whether the run ended as another one.
    pub(crate) fn is_like(&self, other: &End) -> bool {
        self.status == other.status && self.out() == other.out() && self.err() == other.err()
    }
}

/// A run over texts in memory, where one call fails.
pub(crate) fn end_of(alloc: Global, row: &Row, failing: Failing) -> Result<End, NoMemory> {
    let words = words_of(alloc, row)?;
    let mut devices = devices_of(alloc, row, failing)?;
    let Devices { inputs, out, err } = &mut devices;
    let status = run(alloc, &words, inputs, out, err);
    Ok(End { status, devices })
}
