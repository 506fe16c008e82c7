//! The rules of an event text.
ghost use Rattle.std.specs.Prelude.{length, map, nat_le};
ghost use Rattle.std.specs.Result.{result_ok};
ghost use Rattle.event_reader.specs.declared.limits.TheConstants.{EVENTS as LIMIT};
ghost use Rattle.net_base.specs.Gives.{GivesUnless};
ghost use Rattle.net_base.specs.PrefixText.{prefix_spelled};
ghost use Rattle.net_base.specs.Steps.{each_from, or_fault, unless};
ghost use Rattle.location_names.specs.Names.{names_of};
ghost use Rattle.event_reader.specs.Rules.{judged, located, placed};
ghost use Rattle.event_reader.specs.Views.{raw_event, raw_events};

use crate::events::Events;
use crate::fault::EventsFault;
use crate::limits::EVENTS;
use crate::shape::{RawEvent, RawEvents};
use event_base::Event;
use location_names::LocationNames;
use net_base::{List, Loc, Net, Prefix, read_prefix};
use std::alloc::Global;

// There are not more events than a list may have.
fn are_few(events: &[RawEvent<'_>]) -> Result<(), EventsFault>
    ensures { GivesUnless EventsFault.NoMemory (λ u. u) result (unless (EventsFault.TooMany (length events.now)) (nat_le (length events.now) LIMIT)) }
{
    let count = events.len() as u64;
    if count <= EVENTS {
        Ok(())
    } else {
        Err(EventsFault::TooMany(count))
    }
}

// The location of a name in the event at a place.
#[tactic(auto, unfolding(crate::specs::Rules::located))]
fn locate(names: &LocationNames<'_>, place: u64, name: &str) -> Result<Loc, EventsFault>
    ensures { GivesUnless EventsFault.NoMemory (λ l. l) result (located names.now place name.now) }
{
    match names.location(name) {
        Some(at) => Ok(at),
        None => Err(EventsFault::Unknown(place)),
    }
}

// The event at a place.
#[tactic(auto, unfolding(crate::specs::Rules::placed))]
fn event(names: &LocationNames<'_>, place: u64, raw: &RawEvent<'_>) -> Result<Event, EventsFault>
    ensures { GivesUnless EventsFault.NoMemory (λ e. e) result (placed names.now place (raw_event raw.now)) }
{
    match raw {
        RawEvent::Link(word, first, second) => {
            let a = locate(names, place, first)?;
            let b = locate(names, place, second)?;
            Ok(word.event(a, b))
        }
        RawEvent::Router(word, router) => {
            let at = locate(names, place, router)?;
            Ok(word.event(at))
        }
    }
}

// The events, their names those of locations.
fn events(
    alloc: Global,
    names: &LocationNames<'_>,
    raw: &[RawEvent<'_>],
) -> Result<Vec<Event>, EventsFault>
    ensures { GivesUnless EventsFault.NoMemory (λ v. v.items) result (each_from (placed names.now) 1 (map raw_event raw.now)) }
{
    let mut all = Vec::new(alloc);
    for said in raw {
        let placed = event(names, all.len() as u64 + 1, said)?;
        all.push(placed)?;
    }
    Ok(all)
}

// The events, their names those of locations of a network.
fn placed_events(alloc: Global, net: &Net, raw: &[RawEvent<'_>]) -> Result<Vec<Event>, EventsFault>
    ensures { GivesUnless EventsFault.NoMemory (λ v. v.items) result (each_from (placed (names_of net.now)) 1 (map raw_event raw.now)) }
{
    let names = LocationNames::of(alloc, net)?;
    events(alloc, &names, raw)
}

// The prefix of a text.
fn prefix_of(text: &str) -> Result<Prefix, EventsFault>
    ensures { GivesUnless EventsFault.NoMemory (λ p. p) result (or_fault EventsFault.BadPrefix (result_ok (prefix_spelled text.now))) }
{
    match read_prefix(text.as_bytes()) {
        Ok(prefix) => Ok(prefix),
        Err(_) => Err(EventsFault::BadPrefix),
    }
}

/// The events of what is said, or the least rule that it breaks.
#[tactic(auto, unfolding(crate::specs::Rules::judged))]
pub fn judge(alloc: Global, net: &Net, raw: &RawEvents<'_>) -> Result<Events, EventsFault>
    ensures { GivesUnless EventsFault.NoMemory (λ events. events) result (judged net.now (raw_events raw.now)) }
{
    are_few(&raw.events)?;
    let events = placed_events(alloc, net, &raw.events)?;
    let prefix = prefix_of(raw.prefix)?;
    Ok(Events {
        prefix,
        events: List::from_vec(events),
    })
}
