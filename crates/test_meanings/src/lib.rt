//! What definitions mean, on cases that were worked by hand: policies and how they are printed, graphs of cases before nodes
//! are joined, lines, offers, stable outcomes; and rows of bits.
//!
//! Each function goes over tables and gives the first row that is wrong, with its name (`Wrong`). Their calls are tests of
//! `propane_tests`. A definition can be proved of the code and still not say what an engineer means by it. So these rows say
//! it anew, by paths, ranks and offers that anyone can check on paper.
//!
//! What is private isn't tested by itself: its contract says what it does. Nor is what only repeats a clause. Rows of bits
//! are tested against plain loops, since their kernels are built from vector instructions.
//!
//! It knows nothing of commands.
#![tactic(auto)]

mod bits;
mod exit_rows;
mod graphs;
mod lines;
mod offers;
mod outcomes;
mod printing;
mod rows;
mod setting;
mod statements;
mod values;
mod wrong;

pub use bits::{outside_is_told, wrong_bits, wrong_words};
pub use graphs::wrong_graph;
pub use lines::wrong_class;
pub use outcomes::wrong_outcome;
pub use printing::{sample_has_its_texts, wrong_text};
pub use statements::{wrong_meaning, wrong_rank};
pub use wrong::Wrong;
