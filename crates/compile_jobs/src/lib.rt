//! The jobs that compile a policy: a part of what is compiled (`compile`, `evidence`), what explains a refusal (`explain`),
//! the summary of a sample (`sample`); and how a command answers what a third text asks.
//!
//! A job is a function of bytes. It reads the topology and then the policy, compiles, and gives a text or a stop: a fault of
//! the first text that has one comes before a refusal. `compiled_evidence_for` and `compiled_for` are that part, which all
//! commands share that compile.
//!
//! A command that asks something in a third text is an `Answer`. It says what is asked and what is written of the network,
//! the policy, the question and the evidence; the configuration it makes where it needs one. A `Question` says how a text is
//! read: a scenario or events. `answered_texts` does the rest for all of them. So a new command of this kind has no clause of
//! its own for faults, refusals and memory.
//!
//! `explain` compiles, and it is done whatever it finds: the refusal is what was asked for, and no failure of the run. So it
//! isn't among the commands that compile and may end as refused. Its text is the line of the refusal with what shows it, or
//! that nothing refuses the policy.
//!
//! `sample` reads nothing: it makes the two texts of its number, reads them as it would a user's, and writes only the summary
//! of what is compiled. The texts for a user come from `bench/make`, so that the command has one output.
//!
//! It knows nothing of words, names or sinks.
#![tactic(auto)]

mod answers;
mod explain;
mod pairs;
mod sample;
mod written;

pub use answers::{Answer, Question, answered_texts};
pub use compile_core::config_for;
pub use explain::explain_texts;
pub use pairs::{compiled_evidence_for, compiled_for};
pub use sample::sample_summary;
pub use written::{Part, written_texts};
