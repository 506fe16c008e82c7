//! A part of a network's own space.
use net_base::{Pattern, Prefix};

/// Prefixes inside an originated one that peers are believed in: those of the pattern that the statement of the case governs, and that
/// aren't originated.
#[derive(Clone, Copy)]
pub struct OpenPart {
    /// The prefixes of the part are among those of this pattern.
    pub pattern: Pattern,
    /// The originated prefix.
    pub within: Prefix,
    /// The number of the case, from 1.
    pub number: usize,
}
