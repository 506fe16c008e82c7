//! The law that what is printed of an alternative of a statement is read as that alternative. There is no code here.
//!
//! The alternatives of a ranked expression are printed one by one (`choices`), each without ranks, in the form in which
//! policies are printed. That each means what the expression has at its place is said where they are printed. Here it is
//! said that the printed text is no mere picture: put in the place of the whole expression, in its statement, it is read as
//! that alternative. So what `promises` shows as `rank 2 exit(P2)` can be tried as a policy of its own.
//!
//! That holds where the statement itself is printable, which every statement is that was read: an alternative has no more
//! calls than the expression, and needs no more brackets.
//!
//! No command needs it: it says what `promises` shows.
//!
//! It knows nothing of cases and configurations.
#![tactic(auto)]

mod reading;

pub use reading::printed_choices_are_read;
