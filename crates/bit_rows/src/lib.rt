//! The two forms in which graphs keep many small sets: rows of bits, 64 to a word (`Rows`), and lists of nodes
//! (`NodeList`), of which the short ones take no memory of their own.
//!
//! Rows serve where each node has a set of nodes, and whole sets are joined or compared. Each row begins with a word of its
//! own, and bits past the last one are clear. What is done with a row as a whole is done four words at a time, with a plain
//! loop for the rest.
//!
//! Contracts see a table as its words (`PlainRows`), since what contracts see of a type has to be data. `has_at` says what
//! a bit is, and each operation is said bit by bit: a caller reasons about sets and never about words.
//!
//! Lists serve for neighbours. Most nodes have at most six, and a list that asks for memory of its own costs more than it
//! holds. So six nodes lie in the list itself, and more are kept in memory. `lists_with_room` asks for that memory once,
//! where the lengths are known.
//!
//! Numbers of bits have 32 bits, and some of these numbers are left over (`MAX_BITS`).
//!
//! It knows nothing of graphs, and of what the bits and the nodes stand for.
#![tactic(auto)]

mod kernels;
mod members;
mod node_list;
mod rows;

pub use kernels::{
    add_row, clear_row, count_bits, count_outside, is_set, keep_row, outside_is_empty, set_bit,
};
pub use members::add_members;
pub use node_list::{NodeList, empty_lists, lists_with_room};
pub use rows::{MAX_BITS, Rows};
