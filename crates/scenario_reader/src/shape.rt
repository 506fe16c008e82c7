//! The shape of a scenario.
ghost use Rattle.std.specs.Prelude.{map};
ghost use Rattle.serde_json.specs.View.{view};
ghost use Rattle.net_base.specs.Gives.{GivesUnless};
ghost use Rattle.scenario_reader.specs.Shape.{each, ends_of, shape_of, text_of};
ghost use Rattle.location_names.specs.Names.{texts as said};
ghost use Rattle.scenario_reader.specs.Views.{raw_ends, raw_scenario};

use crate::fault::ScenarioFault;
use crate::parts::Field;
use json_values::{list, member_count};
use serde_json::Value;
use std::alloc::Global;

/// A pair of names.
#[derive(Clone, Copy)]
pub struct RawEnds<'a> {
    /// The name that stands first.
    pub from: &'a str,
    /// The name that stands second.
    pub to: &'a str,
}

/// A scenario, before its names are looked up.
#[derive(Drop)]
pub struct RawScenario<'a> {
    /// What stands under `prefix`.
    pub prefix: &'a str,
    /// The names of dead locations.
    pub dead: Vec<&'a str>,
    /// The ends of dead links.
    pub dead_links: Vec<RawEnds<'a>>,
    /// The ends of silent sessions, in either order.
    pub silent: Vec<RawEnds<'a>>,
}

// The pair of names that an entry spells.
#[tactic(auto, unfolding(crate::specs::Shape::ends_of))]
fn ends(field: Field, value: &Value) -> Result<RawEnds<'_>, ScenarioFault>
    ensures { GivesUnless ScenarioFault.NoMemory raw_ends result (ends_of field (view value.now)) }
{
    let Some(ends) = list(value) else {
        return Err(ScenarioFault::Shape(field));
    };
    if ends.len() != 2 {
        return Err(ScenarioFault::Shape(field));
    }
    let Some(from) = ends[0].as_str() else {
        return Err(ScenarioFault::Shape(field));
    };
    let Some(to) = ends[1].as_str() else {
        return Err(ScenarioFault::Shape(field));
    };
    Ok(RawEnds { from, to })
}

// The pairs of names of an array.
fn each_ends(
    alloc: Global,
    field: Field,
    values: &[Value],
) -> Result<Vec<RawEnds<'_>>, ScenarioFault>
    ensures { GivesUnless ScenarioFault.NoMemory (λ v. map raw_ends v.items) result (each (ends_of field) (map view values.now)) }
{
    let mut all = Vec::new(alloc);
    for value in values {
        let read = ends(field, value)?;
        all.push(read)?;
    }
    Ok(all)
}

// The text of an entry.
#[tactic(auto, unfolding(crate::specs::Shape::text_of))]
fn text(field: Field, value: &Value) -> Result<&str, ScenarioFault>
    ensures { GivesUnless ScenarioFault.NoMemory (λ s. s.now) result (text_of field (view value.now)) }
{
    match value.as_str() {
        Some(text) => Ok(text),
        None => Err(ScenarioFault::Shape(field)),
    }
}

// The texts of an array.
fn each_text(alloc: Global, field: Field, values: &[Value]) -> Result<Vec<&str>, ScenarioFault>
    ensures { GivesUnless ScenarioFault.NoMemory (λ v. said v.items) result (each (text_of field) (map view values.now)) }
{
    let mut all = Vec::new(alloc);
    for value in values {
        match text(field, value) {
            Ok(text) => all.push(text)?,
            Err(fault) => return Err(fault),
        }
    }
    Ok(all)
}

/// The scenario that a value has the shape of, or the first part that is not as it should be.
#[tactic(auto, unfolding(crate::specs::Shape::shape_of))]
pub fn shape(alloc: Global, value: &Value) -> Result<RawScenario<'_>, ScenarioFault>
    ensures { GivesUnless ScenarioFault.NoMemory raw_scenario result (shape_of (view value.now)) }
{
    let Some(members) = value.as_object() else {
        return Err(ScenarioFault::Shape(Field::Top));
    };
    let Some(prefix) = value.get("prefix") else {
        return Err(ScenarioFault::Shape(Field::Top));
    };
    let Some(dead) = value.get("dead") else {
        return Err(ScenarioFault::Shape(Field::Top));
    };
    let Some(links) = value.get("dead_links") else {
        return Err(ScenarioFault::Shape(Field::Top));
    };
    let Some(silent) = value.get("silent") else {
        return Err(ScenarioFault::Shape(Field::Top));
    };
    if member_count(members) != 4 {
        return Err(ScenarioFault::Shape(Field::Top));
    }
    let Some(prefix) = prefix.as_str() else {
        return Err(ScenarioFault::Shape(Field::Prefix));
    };
    let Some(dead) = list(dead) else {
        return Err(ScenarioFault::Shape(Field::Dead));
    };
    let dead = each_text(alloc, Field::Dead, dead)?;
    let Some(links) = list(links) else {
        return Err(ScenarioFault::Shape(Field::DeadLinks));
    };
    let dead_links = each_ends(alloc, Field::DeadLinks, links)?;
    let Some(silent) = list(silent) else {
        return Err(ScenarioFault::Shape(Field::Silent));
    };
    let silent = each_ends(alloc, Field::Silent, silent)?;
    Ok(RawScenario {
        prefix,
        dead,
        dead_links,
        silent,
    })
}
