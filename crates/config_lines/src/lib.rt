//! The lines of configuration texts, in both editions: how a text is cut, how each edition writes a tag and which ranges
//! its numbers have, and how one line is read and written; and facts on lines that are taken one after another.
//!
//! Texts and lines are cut one part at a time (`first_part`, `halves`), without memory. What is left is said as the parts
//! that are still to be cut, so the specification speaks of whole lists. A hostile text of line feeds, spaces or commas
//! would cost a slice for each of them, and an honest text two allocations for each line. The words of a line are in an
//! array of ten (`Words`). No form of line has more, which is proved of each form. `read_line` takes memory for the
//! patterns of a `class` line alone.
//!
//! An `Edition` says how tags are written and which ranges numbers have: as communities (RFC 1997) in the first edition, as
//! large communities (RFC 8092) in the second, which also has AS numbers of four octets (RFC 6793). Each law is said once,
//! of both. The ranges of the first edition lie in those of the second (`lines_of_either_edition`). The middle part of a
//! tag is a number whose range has only 0. So it is kept nowhere, and the first edition counts as having 0 there.
//!
//! The form of a line is judged before its numbers. A class number over 4,294,967,295 is read as no number: that is never
//! the next number, so it is an order fault. `lines_have_texts` and `texts_are_lines` say that a line has one text.
//!
//! `specs/LineLines` and the lemmas beside it speak of any text that is cut at its line feeds, and of lines that are taken
//! one after another: what they join to, and which fault is the first. The readers of such texts cite them with their own
//! lines.
//!
//! It knows nothing of what comes before a line, and of what is made of it.
#![tactic(auto)]

mod cut;
mod edition;
pub mod laws;
mod line;
mod number;
mod parts;
mod pattern;
mod read;
mod words;

pub use cut::{first_part, halves};
pub use edition::Edition;
pub use line::{Line, LineFault};
pub use number::{
    Figure, RawTag, Setting, class_number, fitting_tag, in_range, read_class, read_number,
};
pub use parts::{expect, is_word, prefix, read_tag};
pub use pattern::read_pattern;
pub use read::{
    read_end_line, read_line, read_peer_line, read_router_line, read_session_line, read_setting,
};
pub use words::Words;
