//! Whether a graph has exactly the walks of a case that can still be permitted, with their ranks, and no node without a rank
//! at a claimed router.
//!
//! The graph that is judged is compared with a live one, which is known to be faithful to the case. The graph has to be well
//! formed and each of its nodes reached (`is_well_formed`, `are_ended`), with one start at a location and one step from a
//! node to a location at most (`is_single_stepped`). Most graphs are written in an order in which one pass over the steps
//! shows these; only for others is a table made.
//!
//! `alike` compares the two by joining: nodes to which one path leads are of one class, and nodes of a class must step to the
//! same places. That is exact whichever of the graphs is the finer one, and takes fewer joins than there are nodes. A class
//! bears the number of its least node, which is a live one, so the rank of a class is read there (`rank_fault`). Only where a
//! class joins live nodes of unlike ranks are the pairs of nodes gone over to which one path leads: then the least node that
//! is wrong asks for more than classes tell. To go over the pairs always would be simpler, but there may be as many as the
//! product of both graphs.
//!
//! A reader begins with `walks`, `rank_fault` and `mixed_fault`, which are three of the ten rules for evidence. Claimed
//! routers are those at which the faithful graph has a ranked node.
//!
//! `check` and `audit` alone need it.
//!
//! It knows nothing of how the live graph was found.
#![tactic(auto)]

mod comparing;
mod distinct;
mod ended;
mod formed;
mod mixed_rule;
mod rank_rule;
mod walk_rule;
mod ways;

pub use comparing::{WalkClasses, alike};
pub use distinct::is_single_stepped;
pub use ended::are_ended;
pub use formed::is_well_formed;
pub use mixed_rule::mixed_fault;
pub use rank_rule::rank_fault;
pub use walk_rule::walks;
