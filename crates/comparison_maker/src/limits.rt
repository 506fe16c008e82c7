//! The limit on the graphs of pairs.

/// The most steps that the graphs of all pairs of two policies have together: eight times what all cases of one policy may have.
pub const PAIR_STEPS: u64 = 1_048_576;
