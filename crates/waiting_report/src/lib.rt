//! The text of what waits after events: each direction's messages, in order.
//!
//! The events happen as in a trace, and those that are refused are passed over. Then each direction of each link is told in the
//! network's order, message by message, the first one first: so the text says what each delivery would deliver. `waiting` begins
//! with the opening world, and `told` writes what waits in a world.
//!
//! A world's queues can be read from their beginning alone. The world isn't needed any more once it is told, so a queue is taken
//! out of it, told, and let go. Whether any message waits is asked before.
//!
//! What routers hold and peers have heard isn't told here: that is a trace. No evidence is asked, and no policy's claim: messages
//! wait by the lines of the configuration alone.
//!
//! `waiting` alone needs it.
//!
//! It knows nothing of texts of events, evidence, and what is held.
#![tactic(auto)]

mod after_events;
pub mod laws;
mod lines;
mod told;

pub use after_events::waiting;
