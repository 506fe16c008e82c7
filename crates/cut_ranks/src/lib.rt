//! The best rank of each router under failures and one cut more: a link or a router that is dead, too.
//!
//! The best rank of a source is told by its top: of the nodes of the case's graph that are reached at the router the one with
//! the greatest number (`impact_law`). So a cut is a search over the graph of the case. What failures leave of it is found
//! once (`paths_left`), with the list of each node's next nodes, and a search tests each step against the cut as it follows
//! it. So a cut costs a walk over the steps, a table of nodes and one of routers, and no list is made for it (`cut_tops`). A
//! cut names its link by the two ends, so no link is looked up.
//!
//! Most searches could be saved by leaving out cuts that are on no way to a node with the greatest number, and `impact_law`
//! has the law for that (`cuts_off_the_support_change_nothing`); a search is cheap enough to do without. Where nothing fails
//! no search is made: each node of a faithful graph is reached, so the tops are the nodes with the greatest numbers of all
//! (`base_tops`).
//!
//! A reader begins with `live_cuts` (the links that live, in the network's order, then the routers), `tops_left`, and
//! `rank_told`: the rank that a top tells of a router, or of its session to a peer.
//!
//! `impact`, `whatif`, `drain` and `promises` alone need it.
//!
//! It knows nothing of who is claimed, and of texts.
#![tactic(auto)]

mod best;
mod cuts;
mod paths;
mod ranks;
mod search;
mod tops;

pub use cuts::live_cuts;
pub use paths::{Paths, leaves, paths_left};
pub use ranks::rank_told;
pub use tops::{base_tops, cut_tops, tops_left};
