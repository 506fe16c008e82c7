//! What two policies change.
use compare_base::{Pair, PairChange};
use net_base::List;

/// A pair of cases with its prefixes, and what the policies change for these.
#[derive(Drop)]
pub struct ComparedPair {
    /// The pair of cases, with its prefixes.
    pub pair: Pair,
    /// What changes for these prefixes.
    pub change: PairChange,
}

/// All pairs of two policies, in order.
#[derive(Drop)]
pub struct Comparison {
    /// The pairs, also those for which nothing changes.
    pub pairs: List<ComparedPair>,
}
