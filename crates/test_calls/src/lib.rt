//! Public calls that no command makes in this form, on cases that were worked by hand: a case's graph as it is built, what
//! can be reached in it, its relation and its refutation; what entries of route maps let through; which patterns are covered;
//! which prefixes are the least of the pairs of first patterns that two policies have.
//!
//! A call that nothing runs could always answer that memory is refused, and would still be proved. So each of these is made
//! once for real. Each function goes over tables and gives the first row that is wrong. Their calls are tests of
//! `propane_tests`.
//!
//! It knows nothing of commands.
#![tactic(auto)]

mod covers;
mod entries;
mod leasts;
mod relations;

pub use covers::wrong_cover;
pub use entries::wrong_entry;
pub use leasts::wrong_least;
pub use relations::wrong_relation;
