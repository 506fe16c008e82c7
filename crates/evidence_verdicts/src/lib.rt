//! The ten rules for a configuration with its evidence, each said of a case and its nodes, and the verdict that names the first that fails;
//! no code that judges.
//!
//! `CheckRule` has the ten rules in the order in which they are judged, with their numbers and words. `specs/Rules` says each of a case and
//! of nodes of it. A rule that doesn't speak of nodes ignores them. So the least place at which a rule fails is said of all rules alike,
//! and 0 for what has no meaning comes by itself. `specs/Verdicts` says which verdict there is: that all hold, or the first rule that fails
//! over all cases, with the place (`Shown`).
//!
//! The ten rules together are what evidence that passes keeps (`passing_is_the_ten_rules`). They are said beside that, and not in place of
//! it, since who proves needs the rules in one record and who is told of a fault needs one rule by name. There is one verdict
//! (`verdicts_are_one`). So who is told that the evidence holds knows that it passes, and where it passes nothing else is told.
//!
//! `check` and `audit` alone need it.
//!
//! It knows nothing of how the rules are judged.
#![tactic(auto)]

mod laws;
mod rule;
mod verdict;

pub use laws::{passing_is_the_ten_rules, verdicts_are_one};
pub use rule::CheckRule;
pub use verdict::{Shown, Verdict};
