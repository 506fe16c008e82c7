//! The event machine: the opening world of a prefix (`opening`), and what each event makes of a world, or why it is refused (`apply`).
//!
//! An event makes its changes one by one, in the order of its rule (`specs/Steps` of `event_base`). Before each it takes the room to note
//! what undoes it (`Change`): a mark, a route, what was heard or last queued, and all that waits on a link that goes down are exchanged
//! with what was there; a message that was queued is taken back. Where memory is refused, all are undone, the latest first, and the world
//! is as before. So one function undoes whatever has happened. The world and these notes go together (`Changing`), and each of its methods
//! promises one thing (`Makes`): where it succeeds, what it makes of the world, and at all exits that what undoing leaves is what was
//! before it.
//!
//! Events aren't planned ahead instead, since what a router chooses rests on what was changed just before: a plan would be a second world.
//! A change that names no location or link of the network is passed over, so undoing asks nothing of a list of changes. A message that is
//! delivered is copied, and leaves its queue at the end, when nothing is undone any more.
//!
//! That this comes to the same as doing each event in one go is a law (`events_settle_at_once`): what changes at once, who chooses again,
//! and who then gets a message.
//!
//! Compiling doesn't need it.
//!
//! It knows nothing of graphs and evidence.
#![tactic(auto)]

mod at_once;
mod change;
mod changing;
mod choosing;
mod events;
mod known;
mod machine;
mod start;
mod telling;

pub use at_once::events_settle_at_once;
pub use machine::apply;
pub use start::opening;
