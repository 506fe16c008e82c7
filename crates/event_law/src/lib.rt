//! What every event keeps, on any network of speakers of BGP and then on a configured one; no code.
//!
//! Of any speakers (`specs/{Kept,Dead,Together}`): what was last queued is what the sender gives, a route is the router's choice over what
//! it heard, and where no message waits the world is stable (`events_keep`). On sessions that are dead before and after an event nothing
//! happens (`dead_sessions_stay`). Routers that choose again in one event may do so in any order (`choices_have_no_order`).
//!
//! Of a configured network whose evidence passes: each route that is held, and each message on its way, has a run in the graph of its
//! prefix's case (`specs/Waiting`, `held_and_waiting_routes_run`). So at every moment what is held and heard is allowed
//! (`every_moment_is_right`), and where no message waits the routes are settled for what is down (`quiet_worlds_are_settled`).
//!
//! The first half names no configuration, so that it can be used where configurations change, too. The second needs graphs, since what is
//! on its way may be out of date: that it runs in the graph is kept by each hearing and each sending, where being the best route isn't.
//!
//! Compiling doesn't need it.
//!
//! It knows nothing of the compiler and texts.
#![tactic(auto)]

mod worlds;

ghost use Rattle.std.specs.Prelude.{◌≡◌, List, None, Option, true};
ghost use Rattle.config_base.specs.declared.route.Route.{Route};
ghost use Rattle.event_base.specs.declared.event.Event.{Event};
ghost use Rattle.event_base.specs.Steps.{IsQuiet, fault_of, opening, run, step};
ghost use Rattle.event_law.specs.Dead.{DeadSessionsStay, MarksAreAllThatChanges};
ghost use Rattle.event_law.specs.Kept.{AreSpeakers, IsKept, IsStable};
ghost use Rattle.event_law.specs.Together.{OrderIsFree};
ghost use Rattle.event_base.specs.World.{Speakers, World};

pub use worlds::{
    every_moment_is_right, held_and_waiting_routes_run, quiet_worlds_are_settled,
    worlds_have_scenarios,
};

/// Each event keeps what is kept, and in a quiet world the routes are stable.
pub fn events_keep()
    ensures opening { (net : Speakers Route) → AreSpeakers net → IsKept net (opening net) }
    ensures step { (net : Speakers Route) (e : Event) (w : World Route) → AreSpeakers net → IsKept net w → fault_of net e w ≡ None → IsKept net (step net e w) }
    ensures run { (net : Speakers Route) (es : List Event) → AreSpeakers net → IsKept net (run net es (opening net)) }
    ensures quiet { (net : Speakers Route) (w : World Route) → AreSpeakers net → IsKept net w → IsQuiet w → IsStable net w }
{}

/// It doesn't matter in which order routers choose again in one event.
pub fn choices_have_no_order()
    ensures { (net : Speakers Route) → OrderIsFree net }
{}

/// On a session that is live neither before an event nor after it, nothing is sent, heard or forgotten. An event that is about such
/// sessions alone sets its mark and changes nothing else, provided that each message is the same as itself.
pub fn dead_sessions_stay()
    ensures sessions { (net : Speakers Route) → AreSpeakers net → DeadSessionsStay net }
    ensures marks { (net : Speakers Route) → AreSpeakers net → ((m : Option Route) → net.same m m ≡ true) → MarksAreAllThatChanges net }
{}
