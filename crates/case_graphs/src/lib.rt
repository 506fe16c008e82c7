//! The graph of each case of a policy, found by what decides a prefix, or the limit that a case passes.
//!
//! `case_graphs` goes over the cases as the compiler does, with the same room for steps and the same automata. It keeps the trimmed graph
//! of each case under a `PrefixCase`: the number of its statement, and its origins where these are routers. An external case, whose
//! origins are all peers, is kept under its statement alone. Cases that are kept under the same one have the same graph, so none is lost.
//!
//! `graph_for` finds the graph for what decides a prefix. Where the policy has no such case the graph has no nodes. That is so where no
//! statement governs the prefix, and where nothing originates it in a network without peers.
//!
//! The limits are asked and no more: neither that sources have paths nor that numbers exist. So a policy that `compile` refuses for
//! these has graphs here, and a limit may refuse a later case than the one that `compile` refuses. `LimitRefusal` has these three limits
//! and want of memory alone; `compile_refusal` says it as a refusal of the compiler, with the same line. No two limits refuse one policy
//! (`refusals_for_limits_exclude_one_another`).
//!
//! All graphs are held at once, as the compiler holds them: together they have no more steps than one policy may have.
//!
//! Compiling doesn't need it.
//!
//! It knows nothing of relations, numbers or texts.
#![tactic(auto)]

mod graphs;
mod laws;
mod refusal;

pub use graphs::{CaseGraphs, case_graphs, prefix_case};
pub use laws::{cases_within_limits_are_not_refused, refusals_for_limits_exclude_one_another};
pub use refusal::{LimitRefusal, compile_refusal};
