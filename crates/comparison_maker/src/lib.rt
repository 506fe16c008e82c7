//! What two policies over one network change: all pairs of their cases that prefixes have, each with what changes for it, or the limit
//! that is passed first.
//!
//! The graphs of each policy's cases are built as the compiler builds them, first those of the old policy and then those of the new one,
//! each with the room for steps that the compiler has (`BothGraphs`). The graph for the case of a prefix shows all that the policy says of
//! the prefix's walks (`case_graphs_show_walks`); so what a pair of graphs changes is what the policies change for each prefix of the pair.
//! Where a policy has no such case, as for a prefix that no statement governs, that is the graph without nodes.
//!
//! Then the pairs are compared in order, with one room for the steps of the graphs of their pairs of nodes, as the cases of one policy
//! share one (`PAIR_STEPS`). A pair may have as many steps as the product of its two graphs, so without a limit two small policies could
//! ask for much. How many steps a pair of cases has is one number, so it is told of one pair, and never of policies that are compared
//! (`steps_are_counted_once`).
//!
//! Nothing is compiled: whether sources have paths, or preference numbers exist, isn't asked. So a policy that `compile` refuses for these
//! can be compared. `ComparisonRefusal` has the limits of cases, of the old policy and of the new one, the limit of pairs and want of memory.
//!
//! Compiling doesn't need it.
//!
//! It knows nothing of texts, or of how a graph is built or a change is found.
#![tactic(auto)]

mod changes;
mod graphs;
mod laws;
pub mod limits;
mod maker;
mod refusal;

pub use laws::{case_graphs_show_walks, steps_are_counted_once};
pub use maker::compare_policies;
pub use refusal::ComparisonRefusal;
