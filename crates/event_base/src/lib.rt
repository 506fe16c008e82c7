//! Events on a configured network: the world in which they happen, what each does to it, and what the routers and peers of
//! a network say and choose, for one prefix; and why an event is refused.
//!
//! `specs/World` says what speakers of BGP know and what each makes of it. A world has what is down, cut and silent, a
//! queue of messages for each direction of each session, what each end last heard and last queued, and what each router
//! holds. A speaker queues a message where what it would send differs from what it last queued (RFC 4271, 9.1.3). What a
//! route is stays open here, so laws of events can be said of any routes.
//!
//! `specs/Steps` says what each event does: a message is delivered, a link or a router goes down or comes up, a peer speaks
//! or is silent. An event that can't happen is refused with the reason (`EventFault`), and the world stays as it is.
//!
//! `specs/Speaking` has the routers and peers of a configured network. A router takes the first of what its import lines
//! make of what it has heard: by preference, then by the fewest AS numbers, then by the lowest identifier of who gives it
//! (RFC 4271, 9.1.2.2).
//!
//! The code is the two enums `Event` and `EventFault` alone.
//!
//! Compiling doesn't need it.
//!
//! It knows nothing of graphs and evidence.
#![tactic(auto)]

mod event;

pub use event::{Event, EventFault};
