//! Reads tables, a JSON text of recorded routes: the route of each router of a network, or the first rule that the text
//! breaks, with its number, word and values.
//!
//! `read_tables` reads the JSON value, its shape and then rule after rule in the order of their numbers: as many entries as
//! routers, names of locations, and each path beginning with its router. `specs/Spelled` says what a text spells, and the
//! laws in `laws` say of each fault when it comes.
//!
//! Tags and preferences are any two numbers of 32 bits: what a router shows isn't judged here. Places of entries are
//! counted from 1, and place 0 is what stands around them.
//!
//! What comes back is an `Outcome`, the same value as a computed one. So the two are compared without a word on where each
//! is from.
//!
//! `audit` alone needs it.
//!
//! It knows nothing of policies and configurations.
#![tactic(auto)]

ghost use Rattle.std.specs.Prelude.{◌≡◌, IfOk, length};
ghost use Rattle.serde_json.specs.View.{view};
ghost use Rattle.json_values.specs.Json.{json_of};
ghost use Rattle.net_base.specs.Gives.{GivesUnless};
ghost use Rattle.net_base.specs.Steps.{or_fault};
ghost use Rattle.table_reader.specs.Spelled.{spelled};

mod fault;
mod judge;
pub mod laws;
mod shape;

pub use fault::TablesFault;
use json_values::{JsonFault, json_value};
use net_base::Net;
use scenarios::Outcome;
use serde_json::Value;
use std::alloc::Global;

// The JSON value that the bytes spell.
fn value_of(alloc: Global, bytes: &[u8]) -> Result<Value, TablesFault>
    ensures { GivesUnless TablesFault.NoMemory view result (or_fault TablesFault.NotJson (json_of bytes.now)) }
{
    match json_value(alloc, bytes) {
        Ok(value) => Ok(value),
        Err(JsonFault::NotJson) => Err(TablesFault::NotJson),
        Err(JsonFault::NoMemory) => Err(TablesFault::NoMemory),
    }
}

/// The routes that the bytes spell for a network, one entry per router in order of location, or the least rule that they break. The
/// path of a route begins with its router.
#[tactic(auto, unfolding(crate::specs::Spelled::spelled))]
pub fn read_tables(alloc: Global, bytes: &[u8], net: &Net) -> Result<Outcome, TablesFault>
    ensures exact { GivesUnless TablesFault.NoMemory (λ outcome. outcome.routes) result (spelled net.now bytes.now) }
    ensures size { IfOk result (λ outcome. length outcome.routes ≡ length net.now.routers) }
{
    let value = value_of(alloc, bytes)?;
    let raw = shape::shape(alloc, &value)?;
    let routes = judge::judge(alloc, net, &raw)?;
    Ok(Outcome { routes })
}
