//! Which nodes of two graphs no list of places tells apart, found by joining them; and to which pairs of nodes one list of places leads.
//!
//! Two graphs are compared from one node of each. Nodes to which the same list of places leads are of one class, and nodes of a class must
//! step to the same places (`classes`). Each two that meet are joined, and the pairs of their targets wait. Classes are trees: each node
//! points to itself or to a lesser one, and the root, the least node, stands for its class. A join that joins nothing new lets nothing
//! wait, so there are fewer joins than nodes, whichever of the graphs is the finer. To follow all pairs of nodes instead could take as many
//! turns as the product of both counts.
//!
//! That is exact for finer and coarser graphs, since it asks for lists of places and not for a map of nodes. `classes_follow` says what it
//! gives: from two nodes of one class the same lists can be followed, and each leads to two nodes of one class.
//!
//! A class doesn't tell which two nodes meet in it. Where that counts, `pairs_met` goes over the pairs themselves, as many as there are.
//!
//! `check` and `audit` alone need it.
//!
//! It knows nothing of networks.
#![tactic(auto)]

mod forest;
mod joining;
mod laws;
mod met;
mod order;
mod runs;
mod way;

pub use joining::classes;
pub use laws::{classes_follow, steps_are_ways};
pub use met::pairs_met;
pub use order::put_in_order;
pub use way::Way;
