//! The shape of tables.
ghost use Rattle.std.specs.Prelude.{◌≡◌, map};
ghost use Rattle.serde_json.specs.View.{view};
ghost use Rattle.net_base.specs.Gives.{GivesUnless};
ghost use Rattle.net_base.specs.Steps.{each_from};
ghost use Rattle.location_names.specs.Names.{texts};
ghost use Rattle.table_reader.specs.Shape.{each, entry_of, path_of, route_of, shape_of, short_of, tag_of, text_of};
ghost use Rattle.table_reader.specs.Views.{raw_entry, raw_route};

use crate::fault::TablesFault;
use json_values::{list, member_count};
use net_base::Tag;
use serde_json::Value;
use std::alloc::Global;

/// A route, before its names are looked up.
#[derive(Drop)]
pub struct RawRoute<'a> {
    /// The names along the path, as they stand.
    pub path: Vec<&'a str>,
    /// The tag, any two numbers of 32 bits.
    pub tag: Tag,
    /// The local preference (RFC 4271, 5.1.5), any number of 32 bits.
    pub pref: u32,
}

// The whole number of 32 bits that a value is.
fn short(value: &Value) -> Option<u32>
    ensures { result ≡ short_of (view value.now) }
{
    let number = value.as_u64()?;
    if number <= u64::from(u32::MAX) {
        Some(number as u32)
    } else {
        None
    }
}

// The text of a name.
#[tactic(auto, unfolding(crate::specs::Shape::text_of))]
fn text(place: u64, value: &Value) -> Result<&str, TablesFault>
    ensures { GivesUnless TablesFault.NoMemory (λ s. s.now) result (text_of place (view value.now)) }
{
    match value.as_str() {
        Some(text) => Ok(text),
        None => Err(TablesFault::Shape(place)),
    }
}

// The names of an array.
fn each_text(alloc: Global, place: u64, values: &[Value]) -> Result<Vec<&str>, TablesFault>
    ensures { GivesUnless TablesFault.NoMemory (λ v. texts v.items) result (each (text_of place) (map view values.now)) }
{
    let mut all = Vec::new(alloc);
    for value in values {
        match text(place, value) {
            Ok(text) => all.push(text)?,
            Err(fault) => return Err(fault),
        }
    }
    Ok(all)
}

// The names of a path.
#[tactic(auto, unfolding(crate::specs::Shape::path_of))]
fn path(alloc: Global, place: u64, value: &Value) -> Result<Vec<&str>, TablesFault>
    ensures { GivesUnless TablesFault.NoMemory (λ v. texts v.items) result (path_of place (view value.now)) }
{
    let Some(names) = list(value) else {
        return Err(TablesFault::Shape(place));
    };
    if names.len() == 0 {
        return Err(TablesFault::Shape(place));
    }
    each_text(alloc, place, names)
}

// The tag of two numbers.
#[tactic(auto, unfolding(crate::specs::Shape::tag_of))]
fn tag(place: u64, value: &Value) -> Result<Tag, TablesFault>
    ensures { GivesUnless TablesFault.NoMemory (λ t. t) result (tag_of place (view value.now)) }
{
    let Some(numbers) = list(value) else {
        return Err(TablesFault::Shape(place));
    };
    if numbers.len() != 2 {
        return Err(TablesFault::Shape(place));
    }
    let Some(asn) = short(&numbers[0]) else {
        return Err(TablesFault::Shape(place));
    };
    let Some(value) = short(&numbers[1]) else {
        return Err(TablesFault::Shape(place));
    };
    Ok(Tag { asn, value })
}

// The route that an entry spells.
#[tactic(auto, unfolding(crate::specs::Shape::route_of))]
fn route(alloc: Global, place: u64, value: &Value) -> Result<RawRoute<'_>, TablesFault>
    ensures { GivesUnless TablesFault.NoMemory raw_route result (route_of place (view value.now)) }
{
    let Some(members) = value.as_object() else {
        return Err(TablesFault::Shape(place));
    };
    let Some(names) = value.get("path") else {
        return Err(TablesFault::Shape(place));
    };
    let Some(pref) = value.get("pref") else {
        return Err(TablesFault::Shape(place));
    };
    let Some(numbers) = value.get("tag") else {
        return Err(TablesFault::Shape(place));
    };
    if member_count(members) != 3 {
        return Err(TablesFault::Shape(place));
    }
    let path = path(alloc, place, names)?;
    let Some(pref) = short(pref) else {
        return Err(TablesFault::Shape(place));
    };
    let tag = tag(place, numbers)?;
    Ok(RawRoute { path, tag, pref })
}

// What an entry says: a route or none.
#[tactic(auto, unfolding(crate::specs::Shape::entry_of))]
fn entry(alloc: Global, place: u64, value: &Value) -> Result<Option<RawRoute<'_>>, TablesFault>
    ensures { GivesUnless TablesFault.NoMemory raw_entry result (entry_of place (view value.now)) }
{
    if value.is_null() {
        return Ok(None);
    }
    let route = route(alloc, place, value)?;
    Ok(Some(route))
}

// What each entry says, or the first that is not as it should be.
fn entries(alloc: Global, values: &[Value]) -> Result<Vec<Option<RawRoute<'_>>>, TablesFault>
    ensures { GivesUnless TablesFault.NoMemory (λ v. map raw_entry v.items) result (each_from entry_of 1 (map view values.now)) }
{
    let mut all = Vec::new(alloc);
    for i in 0..values.len() {
        let read = entry(alloc, i as u64 + 1, &values[i])?;
        all.push(read)?;
    }
    Ok(all)
}

/// The entries of a value that has the shape of tables, or the first part that is not as it should be.
#[tactic(auto, unfolding(crate::specs::Shape::shape_of))]
pub fn shape(alloc: Global, value: &Value) -> Result<Vec<Option<RawRoute<'_>>>, TablesFault>
    ensures { GivesUnless TablesFault.NoMemory (λ v. map raw_entry v.items) result (shape_of (view value.now)) }
{
    let Some(members) = value.as_object() else {
        return Err(TablesFault::Shape(0));
    };
    let Some(routes) = value.get("routes") else {
        return Err(TablesFault::Shape(0));
    };
    if member_count(members) != 1 {
        return Err(TablesFault::Shape(0));
    }
    let Some(values) = list(routes) else {
        return Err(TablesFault::Shape(0));
    };
    entries(alloc, values)
}
