//! What a policy promises for each of its cases while nothing has failed: where the sources can be, the rank of each, who
//! isn't claimed, and who only carries.
//!
//! What is promised is said without a graph (`specs/Claims`, `specs/Promises`), and found in the graph of the case: its tops
//! show it (`tops_tell_promises`). It is kept for every prefix of the case (`promises_are_kept`), and every claimed source
//! has an allowed path while nothing has failed (`claimed_sources_have_ranks`).
//!
//! Cases stand together in the text by what all their lines say, and not by the lines themselves: a router is no source in
//! the case whose origin it is, so the lines of two racks always differ. What is compared is how everybody stands who isn't
//! an origin, and origins with origins (`Standing`). What one case leaves open another one may tell. So this is no relation
//! that classes could be counted off by: a case joins the first cases that it fits, in the order of their numbers (`Group`,
//! `told_of`). At worst each case is compared with each before it; a policy has at most 4,352 cases, and mostly few that
//! differ. That no case is told otherwise than by itself is `groups_tell_of_cases`.
//!
//! What peers are believed in inside own prefixes is found by `own_space`, and the law `parts_are_what_is_taken` says what it
//! is.
//!
//! Two ranks of a statement are apart where claimed sources have walks of either, and none has walks of both: then the
//! preference between them decides nothing (`apart_ranks_are_apart`). Nodes tell it: a source has the ranks of the nodes at its
//! router, or of those at its peer to which the router's nodes step. So a case is a row of sources for each rank
//! (`source_ranks`), and two ranks meet where their rows do. All cases of a statement together fill one small table
//! (`meeting`), and what is left clear in it is apart. Statements with one rank, which most have, cost nothing.
//!
//! `promises` alone needs it.
//!
//! It knows nothing of the compiler.
#![tactic(auto)]

mod apart;
mod case;
mod cases;
mod counts;
mod group;
mod meeting;
mod places;
mod promises;
mod row;
mod source_ranks;
mod standing;
mod telling;
mod told;
mod words;

pub use apart::{ApartRanks, apart_ranks};
pub use cases::{ToldCases, tell_cases};
pub use counts::{Counts, is_covered, is_named_peer};
pub use group::{Group, entry};
pub use places::sessions_of;
pub use promises::{
    apart_ranks_are_apart, claimed_sources_have_ranks, groups_tell_of_cases,
    parts_are_what_is_taken, promises_are_kept, tops_tell_promises,
};
pub use standing::{Standing, Wanted, is_wanted};
pub use telling::told_of;
pub use told::Told;
