//! The summary of a network and of the evidence that is compiled for it: how much there is of each, line by line, and that it
//! holds.
//!
//! It counts routers, peers, links, cases, nodes, steps, and the different preference numbers of nodes at routers
//! (`preferences`). The lines are those of `summary_text` in `specs/Summary`, in that order. So a user sees at a glance how
//! much a network of a given size comes to.
//!
//! Nodes and steps are counted in 128 bits. Lengths of lists in memory, added up over a list that is in memory, fit them. So
//! no bound on the evidence need be known for the sums to be right; in 64 bits a premise would have to carry the limits of
//! the compiler up to here.
//!
//! A reader begins with `summary`.
//!
//! `sample` alone needs it.
//!
//! It knows nothing of how evidence is found.
#![tactic(auto)]

mod lines;
mod numbers;

pub use lines::summary;
