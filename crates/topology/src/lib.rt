//! Reads a topology, the JSON text of a network: the network, or the least rule that the text breaks, with its number, word
//! and values; and what a topology text means, with the law that reading meets it.
//!
//! Reading goes in passes: the JSON value, its shape, and then rule after rule in the order of their numbers (`rules`), so
//! that of several broken rules the one with the least number is told. Time and memory are in proportion to the number of
//! bytes. `specs/Topology` says what a text spells and `specs/Rules` each rule. The laws in `laws` say of each fault when
//! it comes.
//!
//! What a text means is said apart, without faults and without their order (`specs/Meaning`): the keys of its objects, what
//! stands under them, and that what they say is a network. `topologies_mean_their_network` ties the two: reading gives a
//! network exactly where the text means it.
//!
//! Names, AS numbers and identifiers differ over routers and peers together. A router has a private AS number (RFC 6996).
//! An identifier that is malformed breaks the shape, and so does `0.0.0.0` (RFC 6286). A pair of ends that stands twice is
//! told as a repeated link before a link to itself is.
//!
//! Each name that is read keeps the rule of names (`names_that_are_read_are_lawful`). That is a law of what is read and no
//! rule of networks: only what prints a network or a policy needs it, so no other network has to prove it.
//!
//! It knows nothing of policies.
#![tactic(auto)]

mod fault;
pub mod laws;
mod links;
mod meaning;
pub mod names;
mod parts;
mod rules;
mod shape;
mod sites;

ghost use Rattle.serde_json.specs.View.{view};
ghost use Rattle.json_values.specs.Json.{json_of};
ghost use Rattle.net_base.specs.Gives.{GivesUnless};
ghost use Rattle.net_base.specs.Steps.{or_fault};
ghost use Rattle.topology.specs.Topology.{spelled};

pub use fault::TopoFault;
use json_values::{JsonFault, json_value};
pub use meaning::topologies_mean_their_network;
use net_base::Net;
pub use parts::{Field, Kind};
use serde_json::Value;
use std::alloc::Global;

// The JSON value that the bytes spell.
fn value_of(alloc: Global, bytes: &[u8]) -> Result<Value, TopoFault>
    ensures { GivesUnless TopoFault.NoMemory view result (or_fault TopoFault.NotJson (json_of bytes.now)) }
{
    match json_value(alloc, bytes) {
        Ok(value) => Ok(value),
        Err(JsonFault::NotJson) => Err(TopoFault::NotJson),
        Err(JsonFault::NoMemory) => Err(TopoFault::NoMemory),
    }
}

/// The network that the bytes spell, or the least rule that they break. Routers and peers stand in the order of
/// the text, links ascend. Any bytes are read or refused, in time and memory in proportion to their number.
#[tactic(auto, unfolding(crate::specs::Topology::spelled))]
pub fn read_topology(alloc: Global, bytes: &[u8]) -> Result<Net, TopoFault>
    ensures { GivesUnless TopoFault.NoMemory (λ net. net) result (spelled bytes.now) }
{
    let value = value_of(alloc, bytes)?;
    let raw = shape::shape(alloc, &value)?;
    rules::judge(alloc, &raw)
}
