//! Reads a scenario of failures, a JSON text: the scenario for a network, or the first rule that the text breaks, with its
//! number, word and values.
//!
//! `read_scenario` reads the JSON value, its shape and then rule after rule in the order of their numbers. The lists keep
//! the text's order and repeats; a silent session has its router first, in whichever order the text names it.
//! `specs/Spelled` says what a text spells, and the laws in `laws` say of each fault when it comes.
//!
//! A scenario has exactly its keys: a text with another key is refused, so that a misspelt key isn't a failure that is left
//! out.
//!
//! The place of a pair in a fault has 64 bits, since only the length of the text bounds the number of pairs.
//!
//! `replay`, `drain`, `whatif`, `multipath` and `audit` alone need it.
//!
//! It knows nothing of policies and configurations.
#![tactic(auto)]

ghost use Rattle.serde_json.specs.View.{view};
ghost use Rattle.json_values.specs.Json.{json_of};
ghost use Rattle.net_base.specs.Gives.{GivesUnless};
ghost use Rattle.net_base.specs.Steps.{or_fault};
ghost use Rattle.scenario_reader.specs.Spelled.{spelled};

mod fault;
mod judge;
pub mod laws;
mod parts;
mod shape;

pub use fault::ScenarioFault;
use json_values::{JsonFault, json_value};
use net_base::Net;
pub use parts::Field;
use scenarios::Scenario;
use serde_json::Value;
use std::alloc::Global;

// The JSON value that the bytes spell.
fn value_of(alloc: Global, bytes: &[u8]) -> Result<Value, ScenarioFault>
    ensures { GivesUnless ScenarioFault.NoMemory view result (or_fault ScenarioFault.NotJson (json_of bytes.now)) }
{
    match json_value(alloc, bytes) {
        Ok(value) => Ok(value),
        Err(JsonFault::NotJson) => Err(ScenarioFault::NotJson),
        Err(JsonFault::NoMemory) => Err(ScenarioFault::NoMemory),
    }
}

/// The scenario that the bytes spell for a network, or the least rule that they break. The lists keep the text's order and repeats; a
/// dead link keeps the order of its ends, and a silent session has its router first.
#[tactic(auto, unfolding(crate::specs::Spelled::spelled))]
pub fn read_scenario(alloc: Global, bytes: &[u8], net: &Net) -> Result<Scenario, ScenarioFault>
    ensures { GivesUnless ScenarioFault.NoMemory (λ scenario. scenario) result (spelled net.now bytes.now) }
{
    let value = value_of(alloc, bytes)?;
    let raw = shape::shape(alloc, &value)?;
    judge::judge(alloc, net, &raw)
}
