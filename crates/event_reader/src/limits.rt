//! How much an event text may have.

/// Events of an event list.
pub const EVENTS: u64 = 65_536;
