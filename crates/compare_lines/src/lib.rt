//! The parts of a comparison's text: lines of prefixes, lists of routers and of sessions, and rows of ranks with their walks.
//!
//! Prefixes that follow one another without a gap, at one length, are one line (`push_runs`), so a hundred racks take one. A list of routers
//! or of sessions is told by those that are in it, or by those that aren't, where these are fewer (`push_routers`, `push_sessions`). A row is
//! told with its walk, which is called a path where it comes to no location twice (`push_rows`).
//!
//! What a text has where is in `specs/{Prefixes,Lists,Rows}`. A list of some of the network's routers is taken apart once, into those of which
//! something is so and the others (`RouterParts`), since either may be told.
//!
//! Compiling doesn't need it.
//!
//! It knows nothing of pairs of cases, of what changes, or of how it is found.
#![tactic(auto)]

mod prefixes;
mod routers;
mod rows;

pub use prefixes::{push_patterns, push_runs};
pub use routers::{RouterParts, push_routers, push_sessions, push_set, routers_of, sessions_of};
pub use rows::{push_number_or_none, push_rows};
