//! Which ranks the permitted walks of each statement's cases have, or the limit that a case passes.
//!
//! `reached_ranks` marks the ranks of the nodes of each case's graph (`case_graphs`): a row of bits for each statement. The ranks of the
//! nodes are those of the walks (`ranks_of_nodes_are_those_of_walks`).
//!
//! An alternative is reached by walks, and not by paths without loops. A permitted walk may visit a router twice, and the
//! graph has a node for what it has passed. So an alternative that only a loop meets counts as reached, as everywhere where
//! the ranks of a policy are spoken of. To ask it of paths without loops would be a search over all of them.
//!
//! The limits are asked and no more, as `case_graphs` says. So a policy can be linted that `compile` refuses for its sources, or since no
//! numbers exist.
//!
//! `lint` alone needs it.
//!
//! It knows nothing of relations, numbers or texts.
#![tactic(auto)]

mod laws;
mod marks;
mod ranks;

pub use laws::ranks_of_nodes_are_those_of_walks;
pub use ranks::reached_ranks;
