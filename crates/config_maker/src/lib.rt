//! The configuration that is made of evidence: of cases, each with its graph, and a number and a tag for each node.
//!
//! `config_of` takes the evidence of cases, and not cases, graphs, numbers and tags side by side: who compiles makes the evidence first,
//! and who judges evidence has it. There is one configuration of an evidence (`made_configurations_are_one`), and there always is one,
//! whether it is made or not (`configurations_can_be_made`).
//!
//! Each step is written once with its two ends (`Hop`), and all steps are one sorted list: the lines of a block are a run of it. Cases give
//! steps class by class, so they are put into buckets by both ends, or, where the pairs of locations are more than the steps, by their
//! second and then by their first end. The sort that follows has next to nothing to do. The steps of each bucket are counted first, so none
//! has to grow. No clause says how steps are laid out: it is the sort that puts them in order. Blocks are written in order of location, so
//! no run is searched for: one place for each location moves forward over the list. The neighbours of all locations are gathered in one
//! pass over the links.
//!
//! Graphs must have single steps: one start at a location, one step from a node to a location, and no steps from nodes at peers but starts.
//! Otherwise two import lines of a block would have one class and one tag. Steps into peers must be to nodes that hear. Every well-formed
//! graph is such.
//!
//! It knows nothing of how cases, graphs, numbers and tags are found.
#![tactic(auto)]

mod blocks;
mod classes;
mod find;
mod gather;
mod hop;
mod law;
mod lay;
mod make;

pub use law::{case_lists_are_classes, configurations_can_be_made, made_configurations_are_one};
pub use make::config_of;
