//! The evidence for a configuration, a graph for each case with a number and a tag for each node; and what the configuration is that is
//! made of it.
//!
//! `Evidence` is the evidence of each case (`CaseEvidence`), in the order of the policy's cases. A case keeps what any reader of it needs:
//! one number and one tag for each node, a statement counted from 1, nodes at locations below 768, and no rank 0. All else is judged, since
//! evidence comes from files too.
//!
//! What configuration is made of evidence is a relation (`IsConfigOf` of `specs/Made`): one class for each case, and each block has exactly
//! the lines of its steps, in ascending order and none twice. A step is an export at the router where it begins and an import at the one
//! where it ends, and a start at a router is an `originate` line for each prefix of the case. An export to a peer is said of a step to a
//! node that hears, as the rules of numbers are. So no definition sorts, and yet no two configurations are made of the same evidence.
//!
//! The class of a prefix is the number of the first case to which the prefix belongs (`class_of`), and `case_of` gives that case. Both need
//! no configuration: what reports on outcomes asks the evidence alone.
//!
//! It knows nothing of how evidence is found.
#![tactic(auto)]

mod belonging;
mod evidence;

pub use belonging::{case_of, class_of};
pub use evidence::{CaseEvidence, Evidence, case_copy};
