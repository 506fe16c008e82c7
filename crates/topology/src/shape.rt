//! The shape of a topology.
ghost use Rattle.std.specs.Prelude.{◌≡◌, map};
ghost use Rattle.serde_json.specs.View.{view};
ghost use Rattle.net_base.specs.Gives.{GivesUnless};
ghost use Rattle.topology.specs.Shape.{each, entry_of, ends_of, shape_of, identifier_of};
ghost use Rattle.topology.specs.Views.{raw_entry, raw_ends, raw_topology};

use crate::fault::TopoFault;
use crate::parts::Field;
use json_values::{list, member_count};
use net_base::read_address;
use serde_json::Value;
use std::alloc::Global;

/// An entry of `routers` or `peers`, before its rules are judged.
#[derive(Clone, Copy)]
pub struct RawEntry<'a> {
    /// What stands under `name`.
    pub name: &'a str,
    /// What stands under `asn`: a whole number, whose range isn't judged yet.
    pub asn: u64,
    /// The address under `id` as a number of 32 bits, at least 1.
    pub id: u32,
}

/// An entry of `links`, before its rules are judged.
#[derive(Clone, Copy)]
pub struct RawEnds<'a> {
    /// The name that stands first.
    pub from: &'a str,
    /// The name that stands second.
    pub to: &'a str,
}

/// A topology, before its rules are judged.
#[derive(Drop)]
pub struct RawTopology<'a> {
    /// The routers, in order of the text.
    pub routers: Vec<RawEntry<'a>>,
    /// The peers, in order of the text.
    pub peers: Vec<RawEntry<'a>>,
    /// The links, in order of the text.
    pub links: Vec<RawEnds<'a>>,
}

// The BGP identifier that a text spells.
fn identifier(text: &str) -> Option<u32>
    ensures { result ≡ identifier_of text.now }
{
    let id = read_address(text.as_bytes())?;
    if id == 0 { None } else { Some(id) }
}

// The router or peer that an entry spells, or the first part that is not as it should be.
#[tactic(auto, unfolding(crate::specs::Shape::entry_of))]
fn entry(value: &Value) -> Result<RawEntry<'_>, TopoFault>
    ensures { GivesUnless TopoFault.NoMemory raw_entry result (entry_of (view value.now)) }
{
    let Some(members) = value.as_object() else {
        return Err(TopoFault::Shape(Field::Entry));
    };
    let Some(name) = value.get("name").and_then(Value::as_str) else {
        return Err(TopoFault::Shape(Field::Name));
    };
    let Some(asn) = value.get("asn").and_then(Value::as_u64) else {
        return Err(TopoFault::Shape(Field::Asn));
    };
    let Some(text) = value.get("id").and_then(Value::as_str) else {
        return Err(TopoFault::Shape(Field::Id));
    };
    let Some(id) = identifier(text) else {
        return Err(TopoFault::Shape(Field::Id));
    };
    if member_count(members) != 3 {
        return Err(TopoFault::Shape(Field::Entry));
    }
    Ok(RawEntry { name, asn, id })
}

// The ends of the link that an entry spells.
#[tactic(auto, unfolding(crate::specs::Shape::ends_of))]
fn ends(value: &Value) -> Result<RawEnds<'_>, TopoFault>
    ensures { GivesUnless TopoFault.NoMemory raw_ends result (ends_of (view value.now)) }
{
    let Some(ends) = list(value) else {
        return Err(TopoFault::Shape(Field::Entry));
    };
    if ends.len() != 2 {
        return Err(TopoFault::Shape(Field::Entry));
    }
    let Some(from) = ends[0].as_str() else {
        return Err(TopoFault::Shape(Field::Entry));
    };
    let Some(to) = ends[1].as_str() else {
        return Err(TopoFault::Shape(Field::Entry));
    };
    Ok(RawEnds { from, to })
}

// The routers or peers of an array, or the first part that is not as it should be.
#[tactic(auto, unfolding(crate::specs::Shape::each))]
fn entries(alloc: Global, values: &[Value]) -> Result<Vec<RawEntry<'_>>, TopoFault>
    ensures { GivesUnless TopoFault.NoMemory (λ v. map raw_entry v.items) result (each entry_of (map view values.now)) }
{
    let mut all = Vec::new(alloc);
    for value in values {
        let read = entry(value)?;
        all.push(read)?;
    }
    Ok(all)
}

// The links of an array, or the first part that is not as it should be.
#[tactic(auto, unfolding(crate::specs::Shape::each))]
fn links(alloc: Global, values: &[Value]) -> Result<Vec<RawEnds<'_>>, TopoFault>
    ensures { GivesUnless TopoFault.NoMemory (λ v. map raw_ends v.items) result (each ends_of (map view values.now)) }
{
    let mut all = Vec::new(alloc);
    for value in values {
        let read = ends(value)?;
        all.push(read)?;
    }
    Ok(all)
}

/// The topology that a value has the shape of, or the first part that is not as it should be.
#[tactic(auto, unfolding(crate::specs::Shape::shape_of))]
pub fn shape(alloc: Global, value: &Value) -> Result<RawTopology<'_>, TopoFault>
    ensures { GivesUnless TopoFault.NoMemory raw_topology result (shape_of (view value.now)) }
{
    let Some(members) = value.as_object() else {
        return Err(TopoFault::Shape(Field::Top));
    };
    let Some(routers) = value.get("routers") else {
        return Err(TopoFault::Shape(Field::Top));
    };
    let Some(peers) = value.get("peers") else {
        return Err(TopoFault::Shape(Field::Top));
    };
    let Some(joined) = value.get("links") else {
        return Err(TopoFault::Shape(Field::Top));
    };
    if member_count(members) != 3 {
        return Err(TopoFault::Shape(Field::Top));
    }
    let Some(routers) = list(routers) else {
        return Err(TopoFault::Shape(Field::Routers));
    };
    let routers = entries(alloc, routers)?;
    let Some(peers) = list(peers) else {
        return Err(TopoFault::Shape(Field::Peers));
    };
    let peers = entries(alloc, peers)?;
    let Some(joined) = list(joined) else {
        return Err(TopoFault::Shape(Field::Links));
    };
    let links = links(alloc, joined)?;
    Ok(RawTopology {
        routers,
        peers,
        links,
    })
}
