//! How much a case may have.

/// Nodes of a case before pruning.
pub const NODES: u64 = 4_096;
