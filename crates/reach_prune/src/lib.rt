//! What can be reached in a graph from where, and the part of a graph that can still get a rank.
//!
//! One search marks what steps lead to from some nodes, forward or backward (`marked`). Trimming (`trim`) begins it at the nodes with ranks
//! and goes against the steps: a node from which no rank can be reached is on no permitted walk. The numbers of the nodes that are kept
//! close up in order (`kept`), so what comes first in a graph still comes first.
//!
//! What can be reached from each node is a sweep of its own (`rows_along`), with a row of bits for each node. It makes one search for each
//! node, and a search that comes to a node whose own search is finished takes over that node's whole row. Nodes are taken in the order in
//! which most of the rows that a search meets are finished: against the steps from the first node on, along them from the last, since a
//! node mostly has a greater number than those from which it was entered. The order costs or saves time alone: the rows are right in any
//! order. A search for each node without the sweep would go over all steps as many times as there are nodes.
//!
//! `Reach` keeps for each node those from which it can be reached, the row that is asked for when one pair is asked about. Whoever reads
//! what can be reached from a node makes those rows instead, by `rows_along` forward.
//!
//! It knows nothing of policies.
#![tactic(auto)]

mod marking;
mod reachable;
mod search;
mod steps;
mod sweep;
mod table;
mod trimming;

pub use marking::marked;
pub use reachable::{reach, rows_along};
pub use steps::{Way, neighbours};
pub use table::Reach;
pub use trimming::{kept, trim};
