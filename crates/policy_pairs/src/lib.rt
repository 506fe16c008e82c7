//! The pairs of cases, one in either of two policies, that prefixes have, each once and with its prefixes: those that are
//! originated, or the least one of each two first patterns with what these both contain.
//!
//! Two policies are compared by pairs: two cases, one in either policy, that some prefix has. A case is the statement that governs the
//! prefix, or none, and its origins. Prefixes with one pair are told the same by both policies, so each pair is looked at once. A prefix of
//! which nothing is said, as nothing governs or originates it, has no pair; nor has one that only peers could announce where there are none.
//!
//! Which pairs there are can't be told from the statements: an earlier pattern of either policy may leave nothing to a later one. So pairs
//! are found from prefixes. Those that one of the policies originates are few and stand in its text. Of the others the least one of each two
//! first patterns stands for all (`least_prefixes`). Both lists are grouped by their cases in one way (`groups`), each prefix by a look-up
//! in each policy (`asked`), so the time grows with the prefixes and not with their squares.
//!
//! A pair of others names its prefixes by patterns (`common`): what the first pattern of the old policy and that of the new one both contain.
//!
//! The cases, the prefixes and the order leave no choice: two policies have one list of pairs (`laws`).
//!
//! Compiling doesn't need it.
//!
//! It knows nothing of walks or graphs.
#![tactic(auto)]

mod asked;
mod common;
mod groups;
mod laws;
mod pairs;

pub use laws::pairs_are_one;
pub use pairs::policy_pairs;
