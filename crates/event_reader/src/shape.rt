//! The shape of an event text.
ghost use Rattle.std.specs.Prelude.{map};
ghost use Rattle.net_base.specs.Gives.{GivesUnless};
ghost use Rattle.net_base.specs.Steps.{each_from};
ghost use Rattle.serde_json.specs.View.{view};
ghost use Rattle.event_reader.specs.Shape.{between_two, event_of, of_router, shape_of, text_in};
ghost use Rattle.event_reader.specs.Views.{raw_event, raw_events};

use crate::fault::EventsFault;
use crate::words::{LinkWord, RouterWord};
use json_values::{list, member_count};
use serde_json::Value;
use std::alloc::Global;

/// An event, before its names are looked up.
#[derive(Clone, Copy)]
pub enum RawEvent<'a> {
    /// Between two locations.
    Link(LinkWord, &'a str, &'a str),
    /// To a router.
    Router(RouterWord, &'a str),
}

/// What an event text says, before its names are looked up.
#[derive(Drop)]
pub struct RawEvents<'a> {
    /// What stands under `prefix`.
    pub prefix: &'a str,
    /// The events, in order of the text.
    pub events: Vec<RawEvent<'a>>,
}

// The text at a place of an array, from 0.
#[tactic(auto, unfolding(crate::specs::Shape::text_in))]
fn text_at<'a>(place: u64, parts: &'a [Value], index: usize) -> Result<&'a str, EventsFault>
    ensures { GivesUnless EventsFault.NoMemory (λ s. s.now) result (text_in place (map view parts.now) index) }
{
    let Some(part) = parts.get(index) else {
        return Err(EventsFault::Shape(place));
    };
    match part.as_str() {
        Some(text) => Ok(text),
        None => Err(EventsFault::Shape(place)),
    }
}

// The event between two locations that the parts of an array say.
#[tactic(auto, unfolding(crate::specs::Shape::between_two))]
fn link_event(place: u64, parts: &[Value]) -> Result<RawEvent<'_>, EventsFault>
    ensures { GivesUnless EventsFault.NoMemory raw_event result (between_two place (map view parts.now)) }
{
    let word = text_at(place, parts, 0)?;
    let Some(word) = LinkWord::of(word) else {
        return Err(EventsFault::Shape(place));
    };
    let first = text_at(place, parts, 1)?;
    let second = text_at(place, parts, 2)?;
    Ok(RawEvent::Link(word, first, second))
}

// The event to a router that the parts of an array say.
#[tactic(auto, unfolding(crate::specs::Shape::of_router))]
fn router_event(place: u64, parts: &[Value]) -> Result<RawEvent<'_>, EventsFault>
    ensures { GivesUnless EventsFault.NoMemory raw_event result (of_router place (map view parts.now)) }
{
    let word = text_at(place, parts, 0)?;
    let Some(word) = RouterWord::of(word) else {
        return Err(EventsFault::Shape(place));
    };
    let router = text_at(place, parts, 1)?;
    Ok(RawEvent::Router(word, router))
}

// The event at a place, from 1.
#[tactic(auto, unfolding(crate::specs::Shape::event_of))]
fn event(place: u64, value: &Value) -> Result<RawEvent<'_>, EventsFault>
    ensures { GivesUnless EventsFault.NoMemory raw_event result (event_of place (view value.now)) }
{
    let Some(parts) = list(value) else {
        return Err(EventsFault::Shape(place));
    };
    if parts.len() == 3 {
        link_event(place, parts)
    } else if parts.len() == 2 {
        router_event(place, parts)
    } else {
        Err(EventsFault::Shape(place))
    }
}

// The events of an array.
fn events(alloc: Global, values: &[Value]) -> Result<Vec<RawEvent<'_>>, EventsFault>
    ensures { GivesUnless EventsFault.NoMemory (λ v. map raw_event v.items) result (each_from event_of 1 (map view values.now)) }
{
    let mut all = Vec::new(alloc);
    for value in values {
        let read = event(all.len() as u64 + 1, value)?;
        all.push(read)?;
    }
    Ok(all)
}

/// What a value says that has the shape of an event text, or the first part that is not as it should be.
#[tactic(auto, unfolding(crate::specs::Shape::shape_of))]
pub fn shape(alloc: Global, value: &Value) -> Result<RawEvents<'_>, EventsFault>
    ensures { GivesUnless EventsFault.NoMemory raw_events result (shape_of (view value.now)) }
{
    let Some(members) = value.as_object() else {
        return Err(EventsFault::Shape(0));
    };
    let Some(prefix) = value.get("prefix") else {
        return Err(EventsFault::Shape(0));
    };
    let Some(values) = value.get("events") else {
        return Err(EventsFault::Shape(0));
    };
    if member_count(members) != 2 {
        return Err(EventsFault::Shape(0));
    }
    let Some(prefix) = prefix.as_str() else {
        return Err(EventsFault::Shape(0));
    };
    let Some(values) = list(values) else {
        return Err(EventsFault::Shape(0));
    };
    let events = events(alloc, values)?;
    Ok(RawEvents { prefix, events })
}
