//! The text of a policy, and of each alternative of a statement; each policy that is read is printable, and a printable one
//! is read again as the same policy.
//!
//! `print_policy` writes the originated prefixes and then the statements, one per line, in order, and each line ends with a
//! line feed. A set of all locations is `any`, also in a network of one location. After `from` the names are always
//! written, even if they are all. Brackets stand where an operator binds less strongly than its place asks for.
//! `specs/PolicyText` says the bytes.
//!
//! `print_policy` takes any policy. That its text is read again is promised of printable ones alone (`specs/Printable`,
//! `printed_policies_are_read`), since some policies have no text (`not_all_can_be_printed`): one with a statement without
//! patterns, for example. Each policy that was read is printable (`policies_that_are_read_are_printable`).
//!
//! `printed_policies_are_read` asks that names keep the rule of names, and other things that hold of every value of the
//! program's types. `print_policy` proves them of what it prints, so no caller has to.
//!
//! `push_ranks` writes the alternatives of a ranked expression, one line for each rank, each without ranks, for `promises`.
//! `choices_are_alternatives` says that each means what the expression has at its place.
//!
//! Compiling doesn't need it.
//!
//! It knows nothing of cases and configurations.
#![tactic(auto)]

mod call;
mod choices;
mod law;
mod names;
mod print;
mod printing;
mod ranked;

pub use choices::{choices_are_alternatives, push_ranks};
pub use law::printed_policies_are_read;
pub use print::print_policy;
pub use printing::{
    not_all_can_be_printed, policies_that_are_read_are_printable,
    policies_that_are_read_are_read_again,
};
