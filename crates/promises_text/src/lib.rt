//! The text of what a policy promises: its statements with their ranks, the lines of cases that stand together, and what is said
//! after them.
//!
//! What the lines tell is found by `promises_report`. Ranks are told once a statement, as the policy prints them and not as its source has
//! them: the text is made of the policy alone, and two policies that mean the same read alike. What peers are believed in inside own
//! prefixes stands on one line a case (`open_lines_are_what_is_taken`): a network has a prefix for each rack, and mostly one statement for
//! the world. Ranks that no source has both of stand behind all cases, since they are of a statement and of none of its cases.
//!
//! `promises` alone needs it.
//!
//! It knows nothing of graphs or of the compiler.
#![tactic(auto)]

mod groups;
mod last;
mod laws;
mod line;
mod parts;
mod peers;
mod routers;
mod sessions;
mod text;

pub use laws::{open_lines_are_what_is_taken, open_lines_tell_of_parts};
pub use text::promises_text;
