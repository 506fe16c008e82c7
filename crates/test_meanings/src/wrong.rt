//! How a wrong row is told.

/// A row that is wrong: its name, or that of its table; and its place there, counted from 0.
pub type Wrong = (&'static str, usize);

/// What is told where a text isn't read.
pub(crate) const UNREAD: Wrong = ("a text that isn't read", 0);
