//! The grammar of policies, and a text read lexeme by lexeme, with the brackets that are open.
//!
//! A lexeme is a token with what it stands for (`Symbol`): a word of the language, a name, a figure or a sign.
//! `first_lexeme` and `advance` go through a text without a list of its tokens, and `begins`, `past`, `first` and `passed`
//! are the four ways in which a reader looks at the next one. `specs/Items` and `specs/Ranked` state the grammar as
//! functions that read lexemes, against which the code is proved.
//!
//! Expressions are read into steps in postfix order (`specs/Raw`). So brackets, calls and places are counted before any
//! tree is made, and no chain of operators recurses.
//!
//! `first_deep` finds the first bracket that opens while 64 are open. It is judged before the grammar, so that what reads a
//! bracket by calling itself is never called too deep. It looks at pieces alone, and only where something is wrong it goes
//! through the text again for the place.
//!
//! The 21 words of the language are told apart by their first letters, in several functions: long chains of comparisons
//! over byte strings stop the prover's search.
//!
//! It knows nothing of names and networks.
#![tactic(auto)]

mod deep;
mod lexeme;
mod reading;
mod symbol;

pub use deep::first_deep;
pub use lexeme::{Lexeme, advance, first_lexeme, text_of};
pub use reading::{begins, first, passed, past, refused};
pub use symbol::Symbol;
