//! A configuration with its evidence is judged by ten rules: all of them hold, or the first one that fails is told, with the
//! place where it does.
//!
//! What is asked stands in `evidence_verdicts`. The cases are gone over in order, with the room for steps that the earlier
//! ones leave (`cases_fault`). Each has to be the policy's case of its number, within the limits. Its live graph is made of
//! what the policy says, as it is for the compiler (`case_core`), and one automaton serves all cases of a statement. The
//! evidence's own graph is compared with the live one: walks, ranks (`walk_check`) and preference numbers
//! (`preference_check`). Of all cases the fault is kept whose rule comes first. Tags are judged where no rule on cases fails
//! (`tag_fault`), and the configuration where they are right too.
//!
//! A configuration is judged by its text. The one that is made of the evidence is made and printed, and both texts are
//! compared byte by byte, since a configuration has one text. So a text that is right is never read (`check_text`). Where
//! they differ, the line is told at which they do first, from 1, or the one after the shorter text; and the router in whose
//! block that line is in the text that is made, or 0. `check` has a configuration as a value; it prints it and asks the same,
//! so there is one way to compare.
//!
//! `check` and `audit` alone need it.
//!
//! It knows nothing of how numbers and tags are found, or of texts other than that of a configuration.
#![tactic(auto)]

mod case_rules;
mod cases;
mod config;
mod difference;
mod known;
mod listed;
mod same;
mod tags;
mod verdict;

pub use case_rules::{Fault, case_fault};
pub use cases::{CaseFault, cases_fault};
pub use tags::{CaseNode, tag_fault};
pub use verdict::{check, check_text};
