//! The laws of the way between two configurations: nothing is held or heard on it that neither policy allows; what the stages between them
//! say, and that loads of the first and the last change nothing; no code.
//!
//! A rollout has four configurations: the old one; stage 1, which has the lines of both and the starts of the old one; stage 2, which has
//! the lines of both and the starts of the new one; and the new one. Routers load stage 1, then stage 2, then the new one. `AreStages` of
//! `rollout_base` says what is asked of the two stages, by what they say of a prefix alone.
//!
//! | Law | It says | It needs |
//! |---|---|---|
//! | `every_moment_of_a_rollout_is_right` | whatever parts routers run and load, in any order and at any time: each path that is held or heard the old policy or the new one lets be | evidence that passes for both, tags that are apart, and parts that say no more than these two |
//! | `rollouts_are_safe` | so it is of the four configurations | the same, and `AreStages` |
//! | `rollouts_are_still` | from the old configuration to stage 1, and from stage 2 with all routes new to the new one, loads change nothing at all | `AreStages` |
//! | `stages_say_no_more` | stages that have the lines of both are such stages | how they were made (`IsRollout`) |
//!
//! Why the first: each route that stands anywhere runs in the graph of the old case or in that of the new one. `proofs/OfCase` shows that
//! the routes of one configuration are a kind of routes that its own lines keep, and what the policy says of their paths;
//! `rollout_law/proofs/Layers` that two such kinds stay apart under all events and loads. Where two configurations say the same of a
//! prefix, their tags needn't be apart for it (`proofs/Alike`): then only who originates may differ, and an origin by one policy alone has
//! no tag that anybody reads.
//!
//! None of it asks anything of preferences, or says anything of rest.
//!
//! Compiling doesn't need it.
//!
//! It knows nothing of the compiler, and of how a stage is made.
#![tactic(auto)]

ghost use Rattle.rollout_stages.specs.Laws.{FirstLoadsChangeNothing, LastLoadsChangeNothing, RolloutsAreSafe, RolloutsHaveStages, StagesReadAsStarts, StagesSayNoMore};
ghost use Rattle.rollout_stages.specs.Moments.{EveryMomentOfARolloutIsRight};

/// Two configurations with evidence that passes, and tags apart. Whatever parts the routers run and take that say no more than these
/// two, in whatever order, and whatever fails, comes back and waits meanwhile: each path that is held or heard the old policy or the new
/// one lets be.
pub fn every_moment_of_a_rollout_is_right()
    ensures { EveryMomentOfARolloutIsRight }
{}

/// Each path that is held or heard on the way is one that the old policy or the new one lets be.
pub fn rollouts_are_safe()
    ensures { RolloutsAreSafe }
{}

/// Loads of the old configuration and of stage 1 change nothing from the beginning on, and loads of stage 2 and of the new
/// configuration change nothing where each route is the new one's.
pub fn rollouts_are_still()
    ensures first { FirstLoadsChangeNothing }
    ensures last { LastLoadsChangeNothing }
{}

/// A stage that has the lines of two configurations, and the starts of one of them, does nothing with a prefix that neither does, and
/// with the routes of its starts just what their own configuration does. So two of them are the stages of a rollout.
pub fn stages_say_no_more()
    ensures no_more { StagesSayNoMore }
    ensures reads { StagesReadAsStarts }
    ensures stages { RolloutsHaveStages }
{}
