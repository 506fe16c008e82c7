//! The program: `main`, which gives the words, the files and the two standard streams to `run`, and ends with the number of
//! its status.
//!
//! Words that can't be read as text are no command, so they end as a usage fault does, with status 2. Where memory is refused
//! before the run begins, the program ends with status 6, as a run does that finds none.
//!
//! Nothing is decided here. What the program writes, and when it ends with which status, are clauses of `run` in
//! `propane_run`.
//!
//! It knows nothing of what a command does.
#![tactic(auto)]

use input_output::{FileInputs, OutSink};
use propane_run::{Status, run};
use std::io::ErrorKind;
use std::process::ExitCode;
use std::{env, io};

// The words after the program's name.
fn words_given(rt: &HostRuntime) -> io::Result<Vec<String>> {
    let mut words = Vec::new(rt.alloc());
    for word in env::args(rt)?.skip(1) {
        words.push(word)?;
    }
    Ok(words)
}

fn main(rt: HostRuntime) -> ExitCode {
    let alloc = rt.alloc();
    let words = match words_given(&rt) {
        Ok(words) => words,
        Err(error) => {
            if error.kind() == ErrorKind::OutOfMemory {
                return ExitCode::from(Status::NoMemory.number());
            }
            // Words that can't be read are no command.
            Vec::new(alloc)
        }
    };
    let mut out = OutSink::new(rt.stdout());
    let mut err = OutSink::new(rt.stderr());
    let mut inputs = FileInputs::new(rt);
    let status = run(alloc, &words, &mut inputs, &mut out, &mut err);
    ExitCode::from(status.number())
}
