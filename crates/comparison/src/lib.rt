//! What two policies change, as a value: the pairs of cases with their prefixes, and what changes for these; and whether a
//! pair has changed at all.
//!
//! It is what is found and what is told. So what finds a comparison and what writes it rest on this crate and not on one
//! another. Both can say when a pair has changed (`has_changed`, `specs/Changed`): where the prefix has other origins, or
//! some place differs. Origins are compared as sets.
//!
//! Places that differ by the same words and rows are told together, so when two are the same (`same_words`, `same_rows`) stands here, too.
//!
//! A pair that hasn't changed stands in the list all the same, since the text of a comparison tells how many there are.
//!
//! Compiling doesn't need it.
//!
//! It knows nothing of how pairs are found, or how they're written.
#![tactic(auto)]

mod changed;
mod same;
mod values;

pub use changed::has_changed;
pub use same::{same_rows, same_words};
pub use values::{ComparedPair, Comparison};
