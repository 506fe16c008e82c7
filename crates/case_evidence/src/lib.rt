//! A case with the quotient of its graph and the preference numbers of its nodes, or why the case is refused.
//!
//! `accepted_case` has the graph of the case from `case_core`, joins the nodes that nothing onward tells apart
//! (`node_quotient`), and asks for the greatest relation between nodes of one location (`state_simulation`). Where it is
//! total, numbers are counted off it (`preference_numbers`). Where it isn't, no numbers exist, and the lines that show it are
//! made (`relation_refute`).
//!
//! Nodes are joined before numbers are sought: there are fewer nodes, tags and lines, and evidence that a person can read. No
//! policy changes its verdict by it, since numbers exist on one faithful graph of a case exactly where they exist on every
//! other (`quotient_law`). The limits and the sources are judged before that, on the graph as it was trimmed.
//!
//! What a refusal says is more than that this search failed: no numbers meet the rules on any faithful graph (`IsCaseCause`
//! of `specs/Accepted`). The laws `accepted_cases_are_not_refused`, `case_causes_exclude_one_another` and
//! `accepted_cases_are_one` say that a case has one answer.
//!
//! It knows nothing of tags, configurations or texts.
#![tactic(auto)]

mod accepted;
mod laws;

pub use accepted::{AcceptedCase, accepted_case};
pub use laws::{
    accepted_cases_are_not_refused, accepted_cases_are_one, case_causes_exclude_one_another,
};
