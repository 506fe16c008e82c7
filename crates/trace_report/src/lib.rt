//! The trace of events: they happen one after another from the opening on, refused ones are noted, and then it reports what
//! the world shows; and the law that a world without waiting messages shows what its settled outcome shows.
//!
//! `trace` begins with the world in which nothing has been delivered, lets the events happen (`happen`) and writes the text
//! (`trace_report`). An event that is refused is passed over and has a line with its number and the reason. Then the text
//! tells whether no message waits, and what each router holds. Of a session it tells the path that the peer last heard,
//! which in the middle of things need not be what the router would now send.
//!
//! A world is shown as an outcome is, in the same form (`Standing`). So `quiet_worlds_are_replayed` can say that what is
//! told of a world without waiting messages is what is told of the settled outcome of what is down, cut and silent in it.
//!
//! `trace`, `settle` and `waiting` alone need it.
//!
//! It knows nothing of texts of events.
#![tactic(auto)]

mod happening;
pub mod laws;
mod refused;
mod reporting;
mod tracing;

pub use happening::happen;
pub use refused::{Refused, push_each_refused};
pub use reporting::{Standing, push_quiet, trace_report};
pub use tracing::trace;
