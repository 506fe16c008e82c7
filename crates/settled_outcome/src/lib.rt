//! The settled outcome of a scenario, by the evidence alone: the part of a case's graph that failures leave, the routes that are settled
//! there, and the origins' own.
//!
//! The settled outcome is the one stable outcome in which ties are broken, by preference, then by the fewest AS numbers, then by the lowest
//! identifier of the neighbour (RFC 4271, 9.1.2.2). `settle` follows the graph of the prefix's case, not the lines of a configuration:
//! there each step is looked at once. It leaves of the graph the starts at live locations and the steps over which something comes
//! (`open_graph`), and settles that part. Tags and preferences are those of the nodes, and an origin's own route has the tag of its start,
//! or none without a start.
//!
//! That these are the routes of the lines is proved, by the way from the graph to the configuration (`settled_law`). So no configuration
//! need be made.
//!
//! `open_case` and `settle_open` are these two steps, for callers that have looked up already what fails, or that leave out more of a
//! graph that is open: who cuts one link after another then needn't look at each step anew.
//!
//! What replays, drains and cuts failures, and what tells promises, needs it.
//!
//! It knows nothing of the compiler and texts.
#![tactic(auto)]

mod left;
mod outcome;

pub use left::open_graph;
pub use outcome::{open_case, settle, settle_open};
