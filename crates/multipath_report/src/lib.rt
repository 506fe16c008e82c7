//! Multipath sets and idle links, found by what neighbours give each other in an outcome, and their text: where packets go if
//! routers spread them.
//!
//! `members` asks of each link, in both directions, whether the route that comes over it ties with the one that is held: each link is looked at
//! once, whatever the routes are. `idle` tells over which links nothing goes. `lines` and `parts` write it. The lines of routers and sessions
//! are those of a report (`outcome_report`) with the number of hops in place of the path, since a router's packets take many ways.
//!
//! What a neighbour gives is found by the lines of the configuration (`scenarios::Situation`). So where packets go is asked of no graph; the
//! evidence only tells what the policy claims. That packets go right is said by `multipath_law`.
//!
//! The text is one of its own beside the report of an outcome: there a router is told with its path, and here with a number
//! of hops and several neighbours. Sets are sets of locations, so they are in order as they are.
//!
//! `multipath` and `whatif` alone need it.
//!
//! It knows nothing of the compiler, texts of scenarios, or graphs.
#![tactic(auto)]

mod idle;
mod lines;
mod members;
mod parts;
mod report;
mod text;
mod told;

pub use members::is_member;
pub use report::multipath;
pub use text::multipath_text;
