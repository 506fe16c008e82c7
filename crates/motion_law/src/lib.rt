//! BGP as it moves: what routers may ever hold and send, whoever hears, chooses and sends when, and that it is allowed; which machines stay
//! within that; and the machine in which to hear, to choose and to send are moves of their own; no code.
//!
//! What routers may ever hold needs no machine. `MayHold` of `specs/Ever` is the least set of routes that has each origin's own and is
//! closed under what lines make of anything that a peer may say, and of whatever another router may hold. Every proof about it is an
//! induction on how a route came about, so no order of messages, no timer, no failure, no loss and no choice among what was heard matters.
//! What stays within that set is allowed at every moment, and a machine stays within it as long as its routers hold only what they were
//! told at some time (`specs/Told`). A claim about one machine would hold of routers that do what that machine does, and its reader would
//! have to believe queues; here it is three rules. The machine of `event_base` does (`specs/Events`), and so does that of `specs/Motion`.
//!
//! `specs/Motion` is the machine that comes closest to BGP as it runs: to hear, to choose and to send are moves of their own, a peer may
//! change what it says at any time, the ends of a session notice at different times that it is gone, and ties are broken in any way that
//! doesn't let go of a route without news from a neighbour whose route ties. `specs/Rounds` says what is remembered of the past once
//! everything was sent and then heard.
//!
//! That a route which may be held runs in the graph of its prefix's case is shown with the lemmas of `event_law` (`proofs/Ever`); that what
//! stands behind it is of no account, with those of `outcome_law`.
//!
//! Compiling doesn't need it.
//!
//! It knows nothing of the compiler, and of how an outcome comes about.
#![tactic(auto)]

ghost use Rattle.motion_law.specs.Events.{EventsStayWithin};
ghost use Rattle.motion_law.specs.Ever.{EveryRouteIsAllowed};
ghost use Rattle.motion_law.specs.Rounds.{RoundsRemember};
ghost use Rattle.motion_law.specs.Told.{WhatIsToldMayBeHeld};
ghost use Rattle.motion_law.specs.Within.{EveryMotionIsAllowed, MotionsStayWithin};

/// Where the evidence passes, every route that can ever be held, and every one that can ever be sent to a peer, is allowed.
pub fn every_route_is_allowed()
    ensures { EveryRouteIsAllowed }
{}

/// Any machine in which routers hold only what they were told at some time holds and sends nothing but what may be.
pub fn told_routes_may_be_held()
    ensures { WhatIsToldMayBeHeld }
{}

/// So does the machine of events, in which each router chooses and sends at once and each peer announces the path of itself.
pub fn events_stay_within()
    ensures { EventsStayWithin }
{}

/// And so does that of moves: of routers that hear, choose and send when they like, of peers that say what they like, and of failures. Where
/// the evidence passes, what it holds and sends peers is allowed after whatever moves.
pub fn motions_stay_within()
    ensures within { MotionsStayWithin }
    ensures allowed { EveryMotionIsAllowed }
{}

/// Where everything was sent, and then as much was heard as waited, only what was said since is heard and waits.
pub fn rounds_remember()
    ensures { RoundsRemember }
{}
