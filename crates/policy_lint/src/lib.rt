//! The parts of a policy that can never matter: groups whose names are used nowhere, statements whose prefixes earlier ones
//! govern, statements that no case has, and alternatives that no permitted walk reaches.
//!
//! All that might be found is written in the order in which it is reported, and the findings are those of this list that
//! hold, in order (`AreThose` of `specs/Selected`). What each finding says is a definition of its own (`IsFinding`). So what
//! is found and its order are said apart, and there is one list (`one_list_of_findings_is_told`).
//!
//! A group's name is what follows `define`. The word is reserved, so it is at the head of such an item only. A group is
//! unused where one token alone has its text: tokens are counted by their text, so one pass answers for all groups. A comment
//! is no token, and a group that only an unused group names is used. Which statements are covered is asked of `lint_cover`,
//! which ranks are reached of `lint_ranks`.
//!
//! A finding gives no place in the text, since its line has none: a statement is the N-th item with a `=>`. A refused policy
//! is one that a limit refuses; `lint` may answer where `compile` doesn't. A reader begins with `lint` and `Finding`.
//!
//! `lint` alone needs it.
//!
//! It knows nothing of relations, numbers, or how findings are written.
#![tactic(auto)]

mod finding;
mod findings;
mod groups;
mod laws;
mod statements;

pub use case_graphs::{LimitRefusal, compile_refusal};
pub use finding::Finding;
pub use findings::lint;
pub use laws::one_list_of_findings_is_told;
pub use lint_cover::covered_by;
