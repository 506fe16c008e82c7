//! The classes of a stage between two configurations: pairs of a class of the old one and a class of the new one, with the patterns that
//! both share, and the law that the first pair with a prefix is that of its two classes.
//!
//! A stage has the lines of both configurations, so a prefix is to find there the lines of its class in the old one together with
//! those of its class in the new one. A *cell* is such a pair, with the patterns that both classes share. The number after the last
//! class of a configuration stands for no class of it, with which every prefix is shared. No cell is of no class of either.
//!
//! Cells stand in order of the old class, and then of the new one. A pattern that a class before covers whole is left out, and so is
//! a cell without patterns: two configurations of one network mostly have the same patterns, and then nearly all pairs go.
//!
//! - `specs/Cells`: the patterns that two classes share (`common`), and the cells in order (`cells`).
//! - `specs/Laws`: the first cell with a prefix is that of its two classes (`CellsArePairs`).
//!
//! Each pair of patterns is looked at once, which takes a tenth of a second where each side has some 4,000, and what covers is looked
//! for only where two patterns share something.
//!
//! `between` alone needs it.
//!
//! It knows nothing of the lines of a configuration, and of what stages are for.
#![tactic(auto)]

mod cell;
mod laws;
mod patterns;

pub use cell::{Cell, cells_of, turned};
pub use laws::cells_are_pairs;
