//! The laws of stages that are made: when two configurations may be mixed, by the lines of two classes that share prefixes, and that the
//! stages between them are then a rollout; no code.
//!
//! Routers may have the lines of two configurations, of either or of both, where for each prefix either both do the same with it or the
//! tags of the two are apart (`MayMix` of `rollout_base`). Here that follows from what can be seen in the lines of two classes that
//! share prefixes, a cell (`MayMixIn` of `specs/Mixing`):
//!
//! - every block has the same lines of both classes, but for the number of the class, as far as they are about the prefixes of the cell
//!   (`SaySame`). So what stays, stays: nothing is asked of the tags of a class that doesn't change, whichever other prefixes it has;
//! - or no tag stands in a line of the one class and in one of the other (`HaveNoTagInCommon`).
//!
//! Tags of classes that share no prefix may meet.
//!
//! Compiling doesn't need it.
//!
//! It knows nothing of evidence, and of how tags are chosen.
#![tactic(auto)]

ghost use Rattle.stage_law.specs.Mixing.{CellsMayMix, StagesMakeARollout};

/// Where the classes of each cell may be mixed, the two configurations may be mixed for each prefix.
pub fn cells_may_mix()
    ensures { CellsMayMix }
{}

/// With the stages that are made of the cells they are a rollout, so the laws of `rollout_stages` hold of them.
pub fn stages_make_a_rollout()
    ensures { StagesMakeARollout }
{}
