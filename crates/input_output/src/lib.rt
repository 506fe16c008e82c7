//! Where bytes come from and where they go: the traits `Inputs` and `Sink`, with files and standard streams behind them,
//! and with stand-ins in memory; and `NoMemory`, want of memory.
//!
//! A run is written against the two traits, so what is proved of it holds over files and over memory alike. `FileInputs`
//! and `OutSink` are the real ones. They tell no content, since nobody knows beforehand what a file holds. `MemInputs` and
//! `MemSink` tell all of theirs, and the calls that are listed with `fail` fail. `SureInputs` never fail, and `CountSink`
//! counts bytes and keeps none.
//!
//! A call that fails raises a count, and no other call does. So a device tells in how many calls it failed, and it can be
//! said of a run over any device that the first failure ends it, without a word on which call that is. Counts stay at the
//! last number that eight bytes hold.
//!
//! `read` takes the greatest length that it may give (`INPUT_BYTES` for what a command reads), so a huge file costs no more
//! memory than that. A failed read, a file that is too long and want of memory are told apart (`InputFail`).
//!
//! A write takes some bytes from the front, at least one. `write_whole` goes on until all are taken, and never calls a sink
//! with no byte. A write into a full `MemSink` fails, even if the piece is empty.
//!
//! This crate is apart from the words of a network because both together would pass a hundred functions.
//!
//! It knows nothing of networks.
#![tactic(auto)]

mod count_sink;
mod counter;
mod failing;
mod inputs;
pub mod limits;
mod mem_inputs;
mod mem_sink;
mod no_memory;
mod real;
mod sink;
mod sure_inputs;

pub use count_sink::CountSink;
pub use inputs::{InputFail, Inputs};
pub use mem_inputs::MemInputs;
pub use mem_sink::MemSink;
pub use no_memory::NoMemory;
pub use real::{FileInputs, OutSink};
pub use sink::{Failed, Sink, WriteFault, write_whole};
pub use sure_inputs::SureInputs;
