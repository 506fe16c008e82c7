//! Reads events, a JSON text: the prefix and the events for a network, or the first rule that the text breaks, with its
//! number, word and values.
//!
//! `read_events` reads the JSON value, its shape and then rule after rule in the order of their numbers. There are at most
//! 65,536 events (`EVENTS`), counted before any name is looked up. `specs/Spelled` says what a text spells, and the laws in
//! `laws` say of each fault when it comes.
//!
//! A text says what is asked to happen, not what can. Names must be those of locations. Whether two are linked, or one is a
//! router, is a fault of the event and not of the text: a command names such an event and passes it over. So a list of
//! events can be cut or put into another order, and is still a list of events.
//!
//! `trace`, `settle` and `waiting` alone need it.
//!
//! It knows nothing of policies and configurations.
#![tactic(auto)]

ghost use Rattle.serde_json.specs.View.{view};
ghost use Rattle.json_values.specs.Json.{json_of};
ghost use Rattle.net_base.specs.Gives.{GivesUnless};
ghost use Rattle.net_base.specs.Steps.{or_fault};
ghost use Rattle.event_reader.specs.Spelled.{spelled};

mod events;
mod fault;
mod judge;
pub mod laws;
pub mod limits;
mod shape;
mod words;

pub use events::Events;
pub use fault::EventsFault;
use json_values::{JsonFault, json_value};
use net_base::Net;
use serde_json::Value;
use std::alloc::Global;
pub use words::{LinkWord, RouterWord};

// The JSON value that the bytes spell.
fn value_of(alloc: Global, bytes: &[u8]) -> Result<Value, EventsFault>
    ensures { GivesUnless EventsFault.NoMemory view result (or_fault EventsFault.NotJson (json_of bytes.now)) }
{
    match json_value(alloc, bytes) {
        Ok(value) => Ok(value),
        Err(JsonFault::NotJson) => Err(EventsFault::NotJson),
        Err(JsonFault::NoMemory) => Err(EventsFault::NoMemory),
    }
}

/// The prefix and the events that the bytes spell for a network, or the least rule that they break. The events keep the text's order.
/// Whether an event can happen isn't asked.
#[tactic(auto, unfolding(crate::specs::Spelled::spelled))]
pub fn read_events(alloc: Global, bytes: &[u8], net: &Net) -> Result<Events, EventsFault>
    ensures { GivesUnless EventsFault.NoMemory (λ events. events) result (spelled net.now bytes.now) }
{
    let value = value_of(alloc, bytes)?;
    let raw = shape::shape(alloc, &value)?;
    judge::judge(alloc, net, &raw)
}
