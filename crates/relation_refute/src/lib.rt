//! The refutation of a graph whose relation isn't total: two nodes at one location of which neither may stand at least as high as the
//! other, with the lines that show it.
//!
//! `refutation` goes on from the first round, which the search for a total relation hands on, up to the first round that leaves two nodes
//! at one location without a direction. A cell of 32 bits for each two nodes at one location keeps in which round the pair went. Of the
//! pairs that went in both directions the first by location is taken, and there the one of the least nodes. Why a pair went is asked
//! backwards from those two: each pair rests on at most one that went earlier, so the lines are two chains that go down in rounds, and no
//! reason is kept for pairs that nobody asks about. The refutation that is chosen is said by a definition (`relation_law`), so there is
//! one.
//!
//! There are two calls. The compiler asks `refutation`: it has the first round alone, and no relation where none is total. Whoever has a
//! relation asks `refute`, which gives none exactly where the relation is total, and else makes the first round and calls the other.
//!
//! This is a crate of its own, above the relation, so that what needs the relation alone isn't proved again with it: accepted policies
//! never come here.
//!
//! It knows nothing of policies.
#![tactic(auto)]

mod cells;
mod chains;
mod falls;
mod faults;
mod parted;
mod refuting;

pub use refuting::{refutation, refute};
