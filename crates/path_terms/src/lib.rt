//! Expressions in normal form as terms with numbers, which share their parts: equal expressions have one number.
//!
//! A term (`Term`) is one node of an expression and names its children by their numbers. `Terms` puts each term behind the others, unless
//! it is among them, which is found by hash (`intern`). So an expression has one number, two expressions are equal where their numbers are,
//! and nothing is copied: a state of an automaton is a list of numbers.
//!
//! Each way of making an expression gives the number of its normal form at once: `set_of`, `seq_of`, `either_of`, `both_of`,
//! `complement_of`, `star_of`. Alternation and intersection are made alike (`Join`): what each member adds, whether a member alone counts,
//! and what none make. The members of a term ascend by number. In which order they stand as expressions is a matter of reading alone
//! (`specs/Terms`), so no two terms are compared part by part.
//!
//! Numbers stay when more terms come, also where memory is refused. Children have lesser numbers than the terms that name them, so whatever
//! goes down a term ends (`holds_empty`). Numbers have 32 bits; more terms than these count are answered by want of memory.
//!
//! It knows nothing of classes of locations, states and graphs.
#![tactic(auto)]

mod alternation;
mod emptiness;
mod intersection;
mod join;
mod single;
mod store;
mod term;

pub use alternation::is_all;
pub use emptiness::holds_empty;
pub use join::{both_of, either_of};
pub use single::{complement_of, set_of, star_of};
pub use store::Terms;
pub use term::Term;
