//! Rounds of deliveries: messages are delivered round by round until none waits, and rounds and deliveries are counted.
//!
//! `come_to_rest` begins with a world that some events have led to. A round goes over the links in the network's order, from
//! the first end of each to the second and then back, and delivers as many messages as wait there when the round begins
//! (`round_in` of `specs/Resting`). Each is delivered by `event_core`, as an event like any other.
//!
//! Any order of deliveries would end in the same outcome. That there is one order makes both counts a function of the inputs.
//! Rounds are counted up to a bound that is enough (`rounds_enough`: for n routers n (n + 3) + 1), so there is no answer for
//! a network that doesn't settle. That the network comes to rest is a premise (`ComesToRest` of `rest_law`), which holds
//! where the evidence passes. The number of rounds that is told is the least after which no message waits (`RestsIn`).
//!
//! `settle` alone needs it.
//!
//! It knows nothing of texts, or of what the policy claims.
#![tactic(auto)]

mod enough;
mod resting;
mod round;

pub use resting::{Rest, come_to_rest};
