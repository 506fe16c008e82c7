//! How much the cases of a policy may have.

/// Steps over all cases before pruning.
pub const STEPS: u64 = 131_072;
