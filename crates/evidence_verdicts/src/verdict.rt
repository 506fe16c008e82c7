//! What is answered about a configuration and its evidence.
use crate::rule::CheckRule;

/// Where a rule fails. A field that has no meaning for the rule is 0.
#[derive(Clone, Copy, Debug, PartialEq, Eq)]
pub struct Shown {
    /// The number of the case, from 1.
    pub case: u32,
    /// The first node, counted from 0; where the configuration differs, the router in whose block it does.
    pub first: u32,
    /// The second node, counted from 0.
    pub second: u32,
    /// Where the configuration differs, the first line of its text that does, from 1.
    pub line: u64,
}

/// What is answered about a configuration and its evidence.
#[derive(Clone, Copy, Debug, PartialEq, Eq)]
pub enum Verdict {
    /// All ten rules hold.
    Holds,
    /// This is the first rule that fails, and where it does.
    Fails(CheckRule, Shown),
}
