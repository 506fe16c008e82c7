//! The machine of events as a special case of the one in motion: which moves an event is, and that the worlds are the same
//! after them. There is no code.
//!
//! `event_base` has routers that choose and send at once with each message, ends of a session that notice at once that it's gone, ties that
//! go to the lowest identifier, and peers that say the path of themselves. `motion_law` has none of these premises. `specs/Playing` says
//! which moves an event is: to hear, then to choose by name, then to send to all, say. After the moves of any list of events the world in
//! motion is the world of the events, with nothing behind any path. So what is known of worlds in motion is known of worlds of events.
//!
//! - `proofs/Says`: what is said in both worlds is the same, and so is what is to be sent.
//! - `proofs/Sends`: sending over some directions, one after another, is telling them all at once.
//! - `proofs/Picks`: a router chooses the same in both. `proofs/Again`: so it does where several choose and send.
//! - `proofs/Downs` and `proofs/Ups`: links and routers that go down and come up. `proofs/Forgetting`: what is left where the ends of a
//!   session hear that it is gone.
//! - `proofs/Steps`: event by event. `proofs/Played`: all of them.
//!
//! Compiling doesn't need it.
//!
//! It knows nothing of the compiler, graphs or evidence.
#![tactic(auto)]

ghost use Rattle.event_motion.specs.Playing.{EventsAreMoves};

/// Each list of events is a list of moves that ends in the same world.
pub fn events_are_moves()
    ensures { EventsAreMoves }
{}
