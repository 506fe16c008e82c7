//! The evidence of a configuration that may take over from an old one while the network runs: what is compiled, with tags
//! that the old one leaves free and preferences above its own; and that it passes, that no tag stands in both, and that each
//! preference is above the old ones.
//!
//! It is the evidence that the compiler finds, case by case with the same graph, but for two things: each tag is one that stands nowhere in
//! the old configuration (`free_tags`), and each preference number at a router is raised by the greatest preference of the old one
//! (`specs/Renewed`). The rules of evidence compare numbers only with one another, so raising all of them by as much keeps the rules,
//! and of tags they ask no more than that they differ. So the configuration that is made of it is as right as the one that is
//! compiled, and beside it: no tag stands in both texts, and every new preference is above every old one.
//!
//! `renewed_evidence` makes it, or says that a preference would pass 4,294,967,295. What is so of it are laws, with no code.
//!
//! `renew` and `renewal` alone need it.
//!
//! It knows nothing of texts, or of how stages are made.
#![tactic(auto)]

mod fault;
mod laws;
mod renew;

pub use fault::RenewalFault;
pub use laws::{
    renewed_configurations_are_above, renewed_configurations_are_apart,
    renewed_configurations_are_one, renewed_evidence_passes,
};
pub use renew::{renewed_config, renewed_evidence};
