//! Runs over memory, as their callers have them.
use crate::commands::COMPILE;
use crate::runs::{Devices, Failing, devices_of, words_of};
use crate::texts::{ANY_PATH, Text};
use input_output::{CountSink, NoMemory, OutSink, SureInputs, write_whole};
use propane_library::{
    Came, compile_in_memory, compile_twice, count_compiled, run_again, run_surely,
};
use propane_run::Status;
use std::alloc::Global;
use test_networks::TWO_ROUTERS_CONFIG;

const NO_PATH: &str = "originate 10.0.1.0/24 at A; 10.0.1.0/24 => drop from B;";

const REFUSAL: &str = "propane: refused 4 source-without-path case 1 router B\n";

const UNREAD: &str = "propane: cannot read first\n";

const FAULT: &str = "propane: policy 4 syntax at 1:1\n";

// A policy for two routers, the room, what is told, and its bytes.
type Row = (
    &'static str,
    &'static str,
    usize,
    &'static str,
    &'static str,
);

const ROWS: [Row; 5] = [
    ("any path", ANY_PATH, 4096, "compiled", TWO_ROUTERS_CONFIG),
    (
        "just enough room",
        ANY_PATH,
        258,
        "compiled",
        TWO_ROUTERS_CONFIG,
    ),
    ("too little room", ANY_PATH, 257, "no room", ""),
    ("no path", NO_PATH, 4096, "refused", REFUSAL),
    ("no policy", "=>", 4096, "faulty", FAULT),
];

// Whether this is told, with these bytes.
fn is_told(came: &Came, kind: &str, words: &str) -> bool {
    match came {
        Came::Compiled(text) => kind == "compiled" && text.as_slice() == words.as_bytes(),
        Came::Refused(line) => kind == "refused" && line.as_slice() == words.as_bytes(),
        Came::Faulty(line) => kind == "faulty" && line.as_slice() == words.as_bytes(),
        Came::NoRoom => kind == "no room",
    }
}

// Whether a row comes to what it says.
fn is_right(alloc: Global, row: &Row) -> Result<bool, NoMemory> {
    let came = compile_in_memory(alloc, Text::Routers.bytes(), row.1.as_bytes(), row.2)?;
    Ok(is_told(&came, row.3, row.4))
}

/// The name of the first row that comes to something else.
pub fn wrong_compiled(alloc: Global) -> Result<Option<&'static str>, NoMemory> {
    for row in &ROWS {
        if !is_right(alloc, row)? {
            return Ok(Some(row.0));
        }
    }
    Ok(None)
}

/// Whether the bytes are counted that are compiled, and none where the policy is refused.
pub fn are_bytes_counted(alloc: Global) -> Result<bool, NoMemory> {
    let net = Text::Routers.bytes();
    let compiled = count_compiled(alloc, net, ANY_PATH.as_bytes())?;
    let refused = count_compiled(alloc, net, NO_PATH.as_bytes())?;
    Ok(compiled == Some(258) && refused.is_none())
}

/// Whether the same is compiled twice.
pub fn is_compiled_twice(alloc: Global) -> Result<bool, NoMemory> {
    let (net, policy) = (Text::Routers.bytes(), Text::AnyPath.bytes());
    let (first, again) = compile_twice(alloc, net, policy, 4096)?;
    Ok(
        is_told(&first, "compiled", TWO_ROUTERS_CONFIG)
            && is_told(&again, "compiled", TWO_ROUTERS_CONFIG),
    )
}

// Whether both runs over these devices told what they are to, where the first couldn't read.
fn tells_both(alloc: Global, words: &[String], devices: &mut Devices) -> bool {
    let Devices { inputs, out, err } = devices;
    run_again(alloc, words, inputs, out, err) == Status::Done
        && out.taken() == TWO_ROUTERS_CONFIG.as_bytes()
        && err.taken() == UNREAD.as_bytes()
}

/// Whether a run whose first read fails is done over again.
pub fn is_read_again(alloc: Global) -> Result<bool, NoMemory> {
    let words = words_of(alloc, &COMPILE)?;
    let mut devices = devices_of(alloc, &COMPILE, Failing::Read(0))?;
    Ok(tells_both(alloc, &words, &mut devices))
}

/// Whether a run without words ends as no command.
pub fn is_usage_told(alloc: Global) -> bool {
    let mut inputs = SureInputs::new(alloc);
    let mut out = CountSink::new();
    let mut err = CountSink::new();
    run_surely(alloc, &[], &mut inputs, &mut out, &mut err) == Status::Usage
}

/// Whether a writer gets all bytes.
pub fn is_sent_whole(alloc: Global) -> bool {
    let mut written = Vec::new(alloc);
    let is_sent = write_whole(&mut OutSink::new(&mut written), b"propane").is_ok();
    is_sent && written.as_slice() == b"propane".as_slice()
}
