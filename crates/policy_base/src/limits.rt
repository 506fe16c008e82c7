//! How much a policy may have.

/// Statements of a policy.
pub const STATEMENTS: u64 = 256;
/// Patterns over all statements of a policy.
pub const PATTERNS: u64 = 16_384;
/// Prefixes that a policy originates.
pub const PREFIXES: u64 = 4_096;
/// Pairs of a prefix and an origin over a policy.
pub const ORIGINS: u64 = 16_384;
/// Alternatives of a statement.
pub const ALTERNATIVES: u64 = 64;
