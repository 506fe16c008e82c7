//! Whether the preference numbers of a graph keep the rules for ranks, steps, loops and listeners, and the first pair of nodes that breaks
//! one.
//!
//! A node is *over* another at its router where its number is no less. The rules for ranks, steps and listeners are one rule: a node offers
//! something at a location for a cost, and a node that is over another must offer wherever the other does, for no more. A rank is such an
//! offer at the node's own location, a step to a router one at the next location, which costs less the greater the number is there, and a
//! rank at a peer one at that peer. So three calls, `rank_fault`, `step_fault` and `listener_fault`, are one search with other offers.
//!
//! One pass for each router, in ascending order of number, keeps the least cost owed at each location (`matching_nodes`). Nodes of equal
//! number are taken in before any of them is tested. The pass clears nodes, and only one that isn't cleared is compared with all others. So
//! its proof need only say that a cleared node is right: what it fails to clear costs time, and no answer. To compare all pairs would go
//! over the square of a router's nodes. Where no node hears, the rule for listeners is asked of no pair.
//!
//! The loop rule (`loop_fault`) is asked of a node with itself, since the step rule then gives it for all (`loop_rule_of_itself`). One
//! search for each router, from its nodes in ascending order of number, marks each node with the least number from which it is reached. A
//! router whose nodes have one number needs no search.
//!
//! `check` and `audit` alone need it.
//!
//! It knows nothing of policies, and of how numbers are found.
#![tactic(auto)]

mod faults;
mod flood;
mod laws;
mod loops;
mod low_row;
mod offer_list;
mod offers;
mod passing;
mod runs;

pub use faults::{listener_fault, rank_fault, step_fault};
pub use laws::loop_rule_of_itself;
pub use loops::loop_fault;
