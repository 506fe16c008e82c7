//! The lines of one neighbour's block in a stage between two configurations, put together class by class and in order of their tags; what
//! is found there, and the rules that these lines keep.
//!
//! A line of the old configuration stands in each cell of its class, and so does one of the new configuration. In a cell the lines of
//! both stand in order of their tags, and those of one tag stand once. So a line that both have isn't doubled, and the lines of a block
//! ascend as in every configuration, whatever the two have in them.
//!
//! - `specs/Merging`: two lists of lines of one class, put together (`merged`), and the lines of all cells (`spread`).
//! - `specs/Laws`: what is found in a cell is what the lines of its two classes have, and the lines ascend (`SpreadsRight`) and keep the
//!   rules of those from which they come (`ImportsKeep`, `ExportsKeep`).
//!
//! Imports and exports are lines of one kind here: each has a class and a tag (`TagLine`). The lines of a class are found by two searches
//! in the order that blocks have, so a cell costs little where its classes have no line in the block.
//!
//! `between` alone needs it.
//!
//! It knows nothing of which router or neighbour a block is of, and of when two configurations may be mixed.
#![tactic(auto)]

mod all_cells;
mod laws;
mod line;
mod merge;

pub use all_cells::spread;
pub use laws::{cells_find_lines, spread_lines_are_lawful};
pub use line::TagLine;
