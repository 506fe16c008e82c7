//! How much an input may have.

/// Bytes of a named input.
pub const INPUT_BYTES: u64 = 33_554_432;
