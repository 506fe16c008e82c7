//! In what a source differs by the ranks of its walks in two policies, and which of these ranks show it; and where they show
//! no difference.
//!
//! A row is the rank of a walk in an old policy and in a new one, none where one of them doesn't permit it. Ranks of two policies don't
//! compare with one another: an alternative that nothing meets may have been taken out, or one may have been written as two. So a row
//! with two ranks says nothing alone. What tells of a difference is a row with one rank, a walk that is lost or gained, or two rows that
//! clash: of two walks that both policies permit, one policy orders them otherwise than the other.
//!
//! Where both policies permit some common walk of the place, these are told: whether walks are lost, gained, ordered otherwise. Where they
//! have none in common the place is claimed by one policy alone, or by both for walks of their own, and then the best row of either side
//! shows enough.
//!
//! The rows that show a difference keep their order. So the work is that of comparing rows two and two; there are at most 65 times 65 of them
//! at a place, and mostly fewer than ten.
//!
//! A reader begins with `words_of` and `shown_rows`. That there are no words exactly where the rows agree is
//! `no_words_where_rows_agree`.
//!
//! Compiling doesn't need it.
//!
//! It knows nothing of walks, graphs or sources.
#![tactic(auto)]

mod clash;
mod laws;
mod words;

pub use clash::{clashes, is_common, is_gained, is_lost};
pub use laws::no_words_where_rows_agree;
pub use words::{shown_rows, words_of};
