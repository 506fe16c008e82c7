//! The jobs that report what a compiled configuration does: `replay`, `trace`, `settle`, `drain`, `whatif`, `impact`,
//! `promises`, `multipath`, `waiting`. Each takes the bytes of a topology, a policy and mostly a third text, and gives what a
//! run writes.
//!
//! | Command | Third text | Found by | Written by |
//! |---|---|---|---|
//! | `replay` | a scenario | `settled_outcome` | `outcome_report` |
//! | `trace` | events | `event_core` | `trace_report` |
//! | `settle` | events | `event_rounds` | `settle_report` |
//! | `waiting` | events | `event_core` | `waiting_report` |
//! | `drain`, `whatif` | a scenario | `drain_report`, `whatif_report` | the same, `impact_report` |
//! | `multipath` | a scenario | `multipath_report` | the same |
//! | `impact`, `promises` | none | `impact_report`, `promises_text` | the same |
//!
//! A command here is an `Answer` of `compile_jobs`: that crate reads the texts, compiles, and reports faults and refusals in one way; what is
//! left is to say what the command writes of a network, a policy, the third text and what was compiled. They are one crate since they differ in
//! nothing else, and a new one is some thirty lines. `specs/` has for each what its text says (`Writes..`), and `SaysOfTexts`, which
//! `propane_run` cites.
//!
//! `replay` breaks ties by the full order, since a report of one of several outcomes would be a guess. What is promised is
//! that no other outcome is stable with ties broken so. The claim on what is compiled speaks of all stable outcomes, so it
//! covers the one that is reported. No sentence about a report has evidence in it: that there is one follows from the laws of
//! `settled_law`.
//!
//! Which of them make a configuration is a matter of time. `trace`, `settle` and `waiting` speak the lines at each message,
//! and `multipath` and `whatif` ask what the lines give over links, so they make it. `replay`, `drain`, `impact` and
//! `promises` find all that they need in the evidence: the class of a prefix is the number of the first case to which it
//! belongs. What these promise is said of each configuration for which the evidence passes, and there is one.
//!
//! It knows nothing of words, names or sinks.
#![tactic(auto)]

mod drain;
mod impact;
mod multipath;
mod promises;
mod replay;
mod settle;
mod trace;
mod waiting;
mod whatif;

pub use drain::DrainCommand;
pub use impact::impact_texts;
pub use multipath::MultipathCommand;
pub use promises::promises_texts;
pub use replay::ReplayCommand;
pub use settle::SettleCommand;
pub use trace::TraceCommand;
pub use waiting::WaitingCommand;
pub use whatif::WhatIfCommand;
