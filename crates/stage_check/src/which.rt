//! Which of the two stages.

/// A stage between two configurations: it has the lines of both.
#[derive(Clone, Copy, Debug, PartialEq, Eq)]
pub enum Stage {
    /// With the starts of the old configuration.
    One,
    /// With the starts of the new one.
    Two,
}
