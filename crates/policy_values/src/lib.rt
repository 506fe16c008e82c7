//! The parts of a statement, each read straight to its value: sets, calls, ranked expressions, patterns.
//!
//! As the grammar is read, each part becomes at once what it stands for, and what each rule says of it is noted beside it
//! as a value (`Parts`, `PatternsRead`, `OriginNames`). Nothing else of the text is kept. So reading takes the memory of
//! the policy. A tree of the whole text would take memory for each of its names and calls.
//!
//! What a part comes to is said as a function of what the grammar's definition gives (`specs/Reads`, `over`). So the
//! definitions of the grammar, of the rules and of policies say nothing of this way of reading. `specs/Built` says the
//! values by themselves.
//!
//! A `Reader` has the text, the network and the names above the part. Each of its functions begins at a lexeme and leaves
//! it at the one behind the part. Its `ranked` reads an expression level by level, with a stack of values and one of marks.
//! Once a rule is broken that forbids to keep the values, they are let go, and the rest is read for its verdicts alone.
//!
//! It knows nothing of groups and other statements.
#![tactic(auto)]

mod call_values;
mod levels;
mod name_sets;
mod operators;
mod origins;
mod parts;
mod path_calls;
mod patterns;
mod reader;
mod set_calls;
mod whole;

pub use origins::OriginNames;
pub use parts::Parts;
pub use patterns::{PatternsRead, predicate};
pub use reader::Reader;
pub use whole::Whole;
