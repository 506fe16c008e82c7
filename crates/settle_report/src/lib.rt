//! What is told of a network that comes to rest after events, and its text: which events were refused, in how many rounds and
//! by how many deliveries no message waits any more, and what each router then holds.
//!
//! `settle_events` lets the events happen from the opening world on, as a trace does, and then delivers all messages
//! (`event_rounds`). A line tells each event that can't happen, two lines tell the counts, and then comes the report that
//! `replay` writes (`outcome_report`). The deliveries may be more than 64 bits count, so they are counted in 128.
//!
//! The report is that of a world, but where no message waits it is the report of the one outcome that is settled under what
//! the events left down, cut and silent. That is what `specs/Settlement` says, and it needs evidence that passes. The law
//! `settlements_are_one` says that there is one such text, so two runs tell the same.
//!
//! `settle` alone needs it.
//!
//! It knows nothing of how rounds are delivered, or of texts that are read.
#![tactic(auto)]

pub mod laws;
mod settling;

pub use settling::settle_events;
