//! How much the text of a policy may have, beside what its value may have.

/// `define` items of a policy.
pub const DEFINITIONS: u64 = 256;
/// Calls of a statement.
pub const CALLS: u64 = 256;
/// Brackets that are open at once in a policy.
pub const BRACKETS: u64 = 64;
/// Places in a `path` call.
pub const PLACES: u64 = 256;
