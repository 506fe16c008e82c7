//! The words of the policy language: which there are, and how each is spelled.
//!
//! Each word's text stands once, in `texts`. `WORDS` lists the words, and `Word::named` looks a text up in that list. A name may not
//! be one of them (`net_base`), a call is told by its word (`policy_base`), and a token that spells one stands for it in the grammar
//! (`policy_grammar`): all three ask this crate.
//!
//! The list is searched from its beginning. A tree by letters would be quicker, but would say each word a second time, letter by
//! letter.
//!
//! It knows nothing of what a word means.
#![tactic(auto)]

mod word;

pub use word::{CallWord, SetCall, Word};
