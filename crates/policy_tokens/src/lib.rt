//! The tokens of a policy text one after another, with their places; and what is wrong with a policy text (`PolicyFault`),
//! with its number, word and values.
//!
//! `next_token` cuts the next token off a text, and `tokens` gives all of them. A token has its kind, its bytes and its
//! place. The longer sign always wins: `=>>` is `=>` and a lone `>`, which begins no token.
//!
//! Lines end at a line feed alone: a carriage return is a blank of one column. Columns are counted in bytes. The place
//! after the last byte counts blanks and comments, so a fault at the end of a text is told behind them.
//!
//! The fault type is here, at the bottom of all that reads a policy, since each pass can find one. Its variants stand in
//! the order of their numbers. Of several broken rules the first one is told, and of that one the first token that breaks
//! it. The limits of a text that aren't limits of its value are here, too (`limits`).
//!
//! It knows nothing of the grammar.
#![tactic(auto)]

mod cut;
mod fault;
mod kind;
pub mod limits;
mod next;
mod piece;
mod token;

pub use cut::{is_text, tokens};
pub use fault::PolicyFault;
pub use kind::Kind;
pub use next::{Next, next_token};
pub use piece::{Piece, front};
pub use token::{Token, TokenKind};
