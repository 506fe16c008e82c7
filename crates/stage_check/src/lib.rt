//! Whether there are stages between two configurations, or what is in the way of them; the two stages, and the law that they make a rollout
//! where nothing is.
//!
//! Stages are made of two configurations of the same routers with the same neighbours, where for each pair of a class of the one and a
//! class of the other that share a prefix either both have the same lines in every block, as far as these are about the prefixes that they
//! share, or no tag stands in both, and the preferences of the new lines are above those of the old ones. So nothing is asked of a class that
//! stays as it is, though it have more prefixes than before, or fewer: an `originate` line is about its prefix alone.
//!
//! - `specs/Unlike`: the first router that isn't the same in both (`first_unlike`).
//! - `specs/Verdicts`: how many lines a stage may have, which tags and preferences are in the way, and what is answered (`verdict`).
//! - `specs/Stages`: the two stages (`stage_of`).
//! - `specs/Laws`: where nothing is in the way the stages make a rollout (`StagesAreRollouts`), for every network, prefix and policy.
//!
//! Tags apart make a rollout safe. Preferences in order are asked for so that mixtures of old and new routers come to rest.
//!
//! `between` alone needs it.
//!
//! It knows nothing of texts and evidence, and of how tags and preferences are chosen.
#![tactic(auto)]

mod judging;
mod laws;
mod making;
mod unlike;
mod which;

pub use judging::{MAX_LINES, Verdict, verdict_on};
pub use laws::stages_are_rollouts;
pub use making::stage_between;
pub use which::Stage;
