//! Runs over texts in memory, once, twice, and again after a failed read: what the promises of a run come to for a caller who
//! has the texts.
//!
//! `compile_in_memory` compiles two texts and gives what they come to (`Came`): the text of a configuration, the line of a
//! refusal, the line of a fault, or that there was no room. It takes the room for what is written, since a sink in memory
//! reserves it at once; `count_compiled` says how much the text takes.
//!
//! Inputs may say that the reading of a name is sure not to fail. Nothing is sure by default, and files never are; texts that
//! are held in memory are. So a caller over memory can rule out a read fault (`run_surely`), and has no case for it.
//!
//! A second run over the same inputs comes to the same bytes (`compile_twice`). It follows from the clause `complete` of
//! `run` and from the law that told texts come to one thing. It excepts a run that finds no room, since the contract of a run
//! doesn't say when a sink is full. `run_again` runs once more where a read failed: nothing that the first run did is in the
//! way.
//!
//! Each of these is proved from the clauses and laws of `propane_run` alone. So they show that its clauses are enough for a
//! caller, who sees nothing else.
//!
//! Compiling doesn't need it.
//!
//! It knows nothing of files.
#![tactic(auto)]

mod again;
mod came;
mod counted;
mod memory;
mod words;

pub use again::run_again;
pub use came::Came;
pub use counted::{count_compiled, run_surely};
pub use memory::{compile_in_memory, compile_twice};
