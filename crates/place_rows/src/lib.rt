//! The rows of each place of a pair of cases: the ranks of its walks in two policies, read off the graph of the pairs of nodes
//! of both, each with the least node with which it is met.
//!
//! A router has the rows of the nodes at it, and its session to a peer those of the nodes at the peer to which nodes at the router step.
//! So nodes and steps are gone through once, in order, and what each meets is noted at its place (`noting`). Routers stand by their
//! numbers. Sessions are numbered as they are met, and only those to peers: few steps lead to one. The rows of a place stand in order. A
//! place that is never met has none.
//!
//! That the rows noted are those of the walks of the place is a law of `pair_rows`, of any rows that hold what is met there.
//!
//! Compiling doesn't need it.
//!
//! It knows nothing of policies and walks.
#![tactic(auto)]

mod noting;
mod row;
mod table;

pub use table::PlaceRows;
