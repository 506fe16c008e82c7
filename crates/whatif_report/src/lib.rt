//! What cuts change besides a scenario's failures, and the law that there is one answer: ranks as for `impact`, and, by
//! settling anew, how many routers each cut moves to another route, and how many to another multipath set.
//!
//! A cut is a link or a router that is dead, too. What it changes of best ranks `impact_report` tells. Whom it moves is asked of what the
//! network settles to with it (`settled`): which routers hold another route then (`moving`), and which have another multipath set
//! (`shifting`). A cut over which no other router's route goes moves no route, so nothing is settled for it: each route stays as it is, and
//! sets lose those to which links are dead. For any other the network settles anew, in the part of the case's graph that the failures leave:
//! that is found once, and each cut takes its own starts and steps from it (`opened`).
//!
//! Most cuts move few routers. A multipath set depends on what its router and the router's neighbours hold, and on the links between them. So only
//! links that are cut, or of which an end holds another route, are looked at (`links`), and for these it is asked of both outcomes who is a
//! member. For a cut of one link that moves no route that is the one link.
//!
//! Who is a member is told by `multipath_report`, so the sets are those that `multipath` writes. The text is written by `impact_report`.
//!
//! Sets are counted without being made. Few routers move with most cuts, and routes form a tree, so over all cuts that is
//! little; to make all sets anew for each cut would cost as much as settling. That sets are the same where nothing near them
//! moves is no law of its own: it is shown for what a neighbour gives (`proofs/Gifts`). A reader begins with `what_if` and
//! `what_ifs_are_one`.
//!
//! `whatif` alone needs it.
//!
//! It knows nothing of the compiler or of texts.
#![tactic(auto)]

mod cut;
mod laws;
mod links;
mod moving;
mod opened;
mod report;
mod settled;
mod shifting;

pub use laws::what_ifs_are_one;
pub use report::what_if;
