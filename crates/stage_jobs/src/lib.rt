//! The job of `between`: the text of a stage between two configurations, from bytes to bytes, or the line of what is in the
//! way.
//!
//! Two texts are read, an old configuration and a new one. Where nothing is in the way (`stage_check`) the text of the stage is written
//! that is asked for; else the line of what is in the way.
//!
//! | Answer | Where |
//! |---|---|
//! | the text of the stage | nothing is in the way |
//! | `unlike router N`, `shared tag A:0:V`, `low pref N` | the two can't be mixed, and this is the first or the least that is in the way |
//! | the refusal `too-many-lines` | a stage would have too many lines |
//! | a fault of one of the texts | `before` and `after` tell which |
//!
//! `specs/Betweens` has what is said.
//!
//! `between` alone needs it.
//!
//! It knows nothing of words, names or sinks.
#![tactic(auto)]

mod between;
mod texts;
mod way;

pub use between::between_texts;
pub use way::way_line;
