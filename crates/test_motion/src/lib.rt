//! What the definitions of networks in motion mean, on two networks of three places that were worked by hand: what routers
//! hold after moves; no code.
//!
//! No program runs the machine of `motion_law`, so its definitions are tried by tables of equations in `specs/Rows`. Anyone
//! can check on paper what a router holds after a row's moves, and the prover computes it. That the machine of events, which
//! programs run, is a special case of it is a law (`event_motion`). So the rows are about what that one doesn't have: ties
//! that a move decides, peers that say other paths, and sessions that are gone before their ends know.
//!
//! The networks are those of `restless_law`, which never rest where ties are tossed anew each time, or where lengths aren't
//! compared. Here they do rest.
//!
//! No command needs it.
//!
//! It knows nothing of evidence and of how an outcome comes about.
#![tactic(auto)]

ghost use Rattle.test_motion.specs.Rows.{BetweenPeers, InATriangle};

/// After the moves of each row routers hold what the row says.
pub fn moves_do_as_worked()
    ensures peers { BetweenPeers }
    ensures triangle { InATriangle }
{}
