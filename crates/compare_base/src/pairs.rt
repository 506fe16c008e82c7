//! Pairs of cases with their prefixes.
use crate::cases::CasePair;
use net_base::{List, Pattern, Prefix};

/// What the first patterns that contain a prefix in either policy both contain, and the least prefix of which these are the first.
#[derive(Clone, Copy)]
pub struct CommonPattern {
    /// What the two first patterns both contain.
    pub pattern: Pattern,
    /// The least of the prefixes of which these two are the first patterns.
    pub least: Prefix,
}

/// The prefixes of a pair of cases: those that one of the policies originates, in order, or else patterns.
#[derive(Drop)]
pub enum PairPrefixes {
    /// Prefixes that the old policy or the new one originates, in order.
    Originated(List<Prefix>),
    /// Prefixes that neither policy originates, by patterns that contain them.
    Others(List<CommonPattern>),
}

/// Two cases that some prefix has, one in either policy.
#[derive(Drop)]
pub struct Pair {
    /// The two cases.
    pub cases: CasePair,
    /// The prefixes that have them.
    pub prefixes: PairPrefixes,
}
