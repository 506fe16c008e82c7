//! Places in texts.

/// A place in a text: the line and the column, both from 1, the column in bytes.
#[derive(Clone, Copy, Debug, PartialEq, Eq, PartialOrd, Ord)]
pub struct Place {
    /// The line, from 1. A line ends at a line feed alone.
    pub line: u32,
    /// The column in bytes, from 1.
    pub column: u32,
}
