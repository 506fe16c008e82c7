//! Graphs of cases: their nodes, starts and steps, what is asked of them and of their preference numbers, the walks by which nodes are
//! shown, and the routers at which a node has a rank.
//!
//! A node is a location with what is known of the walk that led there from an origin: whether a peer hears there, and which rank the walks
//! have that end there. A step goes the way a route travels. A `Graph` keeps a rule: starts and steps name nodes of it, at most `MAX_NODES`
//! (`IsGraph`). All else is asked where it is needed. `IsWellFormed` says what a graph over a network is. `MeetsRules` says what preference
//! numbers keep, so that a router's choice costs neither it nor who hears from it a better path: a rule for ranks, one for steps, one for
//! loops and one for listeners. `specs/Runs` follows a path through a graph, from its origin on.
//!
//! A node is shown by one walk (`walk_of`): back from the node to a start, over the least-numbered node that steps to each. That is said
//! twice. `IsShownWalk` is a relation between a node and a list, and no node has two such lists (`shown_walk_is_unique`). `shown_walk` is a
//! function, for what is printed: so the lines in which nodes are named follow from the nodes, and there is one text.
//!
//! The types of a refutation (`Refutation`), and what it is to be one (`specs/Refuting`), stand here, far below what finds one. So whoever
//! reads or prints a refutation needs nothing of the search for it. What finds things in graphs is elsewhere on purpose: a change here has
//! everything above proved again.
//!
//! Numbers of nodes have 32 bits. `MAX_NODES` is below what 32 bits can count, so that some numbers are left over to stand for no node.
//!
//! It knows nothing of expressions and configurations.
#![tactic(auto)]

mod follow;
mod graph;
mod ranked;
mod refutation;
mod walk_laws;

pub use follow::{step_of, walk_of};
pub use graph::{Graph, MAX_NODES, Node, Prefs, Tags};
pub use ranked::ranked_routers;
pub use refutation::{Refutation, Removed, Why};
pub use walk_laws::{shown_walk_is_a_function, shown_walk_is_unique, shown_walk_leads_to_its_node};
