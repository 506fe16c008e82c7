//! Runs over texts in memory, against what is to come of them: every command with each read and each write failing in turn,
//! and as callers have runs.
//!
//! `wrong_run` runs each command of a table again and again: without a fault, then with the first read failing, then the
//! second, and so on through all reads and writes. It gives the first run that ends otherwise than it has to. The other
//! functions call the library as a program would, and use a sink that takes little at a time. `propane_tests` calls them all.
//!
//! What a run shows, text for text, is tested over files by the rows of `tools/test/runs/`, with the proved program. Here
//! such rows would cost as much as a large crate, since a proof goes over all bytes of a table for each of its rows.
//!
//! It knows nothing of files.
#![tactic(auto)]

mod callers;
mod commands;
mod devices;
mod runs;
mod texts;

pub use callers::{
    are_bytes_counted, is_compiled_twice, is_read_again, is_sent_whole, is_usage_told,
    wrong_compiled,
};
pub use devices::{is_written_in_pieces, wrong_fault, wrong_run};
