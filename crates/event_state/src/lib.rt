//! The world of events as data, and its changes one at a time: whether a message waits, why an event is refused, what would
//! be sent, and what a router would choose.
//!
//! `World` keeps what is down and what is held by location, and what is cut, silent, waiting, heard and last queued by
//! direction. Each link has two directions: those from the lesser ends of the links come first, in the order of the links,
//! and then those back (`direction`). So each thing is one place in one list. `specs/States` says which abstract world such
//! lists are (`state`), and each question is answered of that world.
//!
//! The questions are `fault` (why an event is refused), `owes` and `message` (what is to be sent to a neighbour), `choice`
//! (what a router would hold), `is_quiet` (whether any message waits). The changes are the `set_` and `swap_` functions,
//! `post`, `pop` and `take_back`. Each changes one thing. A `swap_` gives back what was there, and `take_back` undoes
//! `post`: so whoever makes several changes can undo them where memory runs out in between.
//!
//! The choice goes by preference, then by the fewest AS numbers, then by the lowest identifier of who gives the route (RFC
//! 4271, 9.1.2.2).
//!
//! A network's neighbours are found once, when the world is made, since every event asks for them. This crate is apart from
//! the one that makes events happen because both together would pass a hundred functions.
//!
//! Compiling doesn't need it.
//!
//! It knows nothing of graphs and evidence.
#![tactic(auto)]

mod choosing;
mod directions;
mod faults;
mod making;
mod near;
mod queue;
mod quiet;
mod sending;
mod world;
mod writes;

pub use directions::direction;
pub use queue::Queue;
pub use world::World;
