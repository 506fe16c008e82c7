//! The shape of evidence.
ghost use Rattle.std.specs.Prelude.{◌≡◌, ◌≤◌, ◌==◌, map, length, is_none, IfOk};
ghost use Rattle.std.specs.List.{list_any};
ghost use Rattle.std.specs.Option.{ForSome};
ghost use Rattle.serde_json.specs.View.{view};
ghost use Rattle.net_base.specs.Gives.{GivesUnless};
ghost use Rattle.evidence_text.specs.Shape.{
  are_in_order as in_order,
  ascend_from,
  begins_as_case as begins_with_keys,
  case_of,
  each,
  has_size as is_of_size,
  is_case as has_case_keys,
  is_evidence as has_evidence_keys,
  list_of,
  member_of,
  node_of,
  number_at as number_at_place,
  number_of,
  origins_of,
  places_of,
  prefix_of,
  row_of,
  shape_of,
  step_of,
  version_of,
  ways_of,
};

use crate::fault::EvidenceFault;
use crate::numbers::{Numbers, number, pair};
use crate::parts::Field;
use crate::raw::{NodeEntry, RawCase, RawEvidence, RawPlaces, RawWays};
use json_values::{has, list, member_count};
use net_base::{List, Prefix, read_prefix};
use serde_json::Value;
use std::alloc::Global;

// What an object has under a key.
fn member<'a>(value: &'a Value, field: Field, key: &str) -> Result<&'a Value, EvidenceFault>
    ensures { GivesUnless EvidenceFault.NoMemory (λ v. view v.now) result (member_of field key.now (view value.now)) }
{
    match value.get(key) {
        Some(found) => Ok(found),
        None => Err(EvidenceFault::Shape(field)),
    }
}

// The items of the array that an object has under a key.
#[tactic(auto, unfolding(crate::specs::Shape::list_of))]
fn items<'a>(value: &'a Value, field: Field, key: &str) -> Result<&'a [Value], EvidenceFault>
    ensures { GivesUnless EvidenceFault.NoMemory (λ s. map view s.now) result (list_of field key.now (view value.now)) }
{
    let found = member(value, field, key)?;
    match list(found) {
        Some(items) => Ok(items),
        None => Err(EvidenceFault::Shape(field)),
    }
}

// Whether there are so many items.
fn has_length(items: &[Value], size: usize) -> bool
    ensures { result ≡ (length (map view items.now) == size) }
{
    items.len() == size
}

// The items of an array that has exactly so many.
fn row(field: Field, size: usize, value: &Value) -> Result<&[Value], EvidenceFault>
    ensures { GivesUnless EvidenceFault.NoMemory (λ s. map view s.now) result (row_of field size (view value.now)) }
{
    let Some(items) = list(value) else {
        return Err(EvidenceFault::Shape(field));
    };
    if !has_length(items, size) {
        return Err(EvidenceFault::Shape(field));
    }
    Ok(items)
}

// The number at a place of a row.
#[tactic(auto, unfolding(crate::specs::Shape::number_at))]
fn number_at(
    field: Field,
    least: u32,
    most: u32,
    row: &[Value],
    place: usize,
) -> Result<Option<u32>, EvidenceFault>
    ensures number { GivesUnless EvidenceFault.NoMemory (λ n. n) result (number_at_place field least most (map view row.now) place) }
    ensures range { IfOk result (λ n. ForSome n (λ k. k ≤ most)) }
{
    match row.get(place) {
        Some(value) => number(field, least, most, value),
        None => Err(EvidenceFault::Shape(field)),
    }
}

// The node that an entry of `nodes` says.
#[tactic(auto, unfolding(crate::specs::Shape::node_of))]
fn node(value: &Value) -> Result<Option<NodeEntry>, EvidenceFault>
    ensures { GivesUnless EvidenceFault.NoMemory (λ n. n) result (node_of (view value.now)) }
{
    let row = row(Field::Nodes, 6, value)?;
    let numbers = Numbers {
        location: number_at(Field::Nodes, 0, 767, row, 0)?,
        listener: number_at(Field::Nodes, 0, 1, row, 1)?,
        rank: number_at(Field::Nodes, 0, u32::MAX, row, 2)?,
        number: number_at(Field::Nodes, 0, u32::MAX, row, 3)?,
        asn: number_at(Field::Nodes, 0, u32::MAX, row, 4)?,
        value: number_at(Field::Nodes, 0, u32::MAX, row, 5)?,
    };
    Ok(numbers.entry())
}

// The step that an entry of `steps` says.
#[tactic(auto, unfolding(crate::specs::Shape::step_of))]
fn step(value: &Value) -> Result<Option<(u32, u32)>, EvidenceFault>
    ensures { GivesUnless EvidenceFault.NoMemory (λ s. s) result (step_of (view value.now)) }
{
    let row = row(Field::Steps, 2, value)?;
    let from = number_at(Field::Steps, 0, u32::MAX, row, 0)?;
    let to = number_at(Field::Steps, 0, u32::MAX, row, 1)?;
    Ok(pair(from, to))
}

// The prefix that an entry of `prefixes` spells.
#[tactic(auto, unfolding(crate::specs::Shape::prefix_of))]
fn prefix(value: &Value) -> Result<Prefix, EvidenceFault>
    ensures { GivesUnless EvidenceFault.NoMemory (λ p. p) result (prefix_of (view value.now)) }
{
    let Some(text) = value.as_str() else {
        return Err(EvidenceFault::Shape(Field::Prefixes));
    };
    match read_prefix(text.as_bytes()) {
        Ok(prefix) => Ok(prefix),
        Err(_) => Err(EvidenceFault::Shape(Field::Prefixes)),
    }
}

// The nodes of an array, or the first part that is not as it should be.
fn nodes(alloc: Global, values: &[Value]) -> Result<List<Option<NodeEntry>>, EvidenceFault>
    ensures { GivesUnless EvidenceFault.NoMemory (λ v. v) result (each node_of (map view values.now)) }
{
    let mut all = Vec::with_capacity(alloc, values.len())?;
    for value in values {
        let read = node(value)?;
        all.push(read)?;
    }
    Ok(List::from_vec(all))
}

// The steps of an array, or the first part that is not as it should be.
fn steps(alloc: Global, values: &[Value]) -> Result<List<Option<(u32, u32)>>, EvidenceFault>
    ensures { GivesUnless EvidenceFault.NoMemory (λ v. v) result (each step_of (map view values.now)) }
{
    let mut all = Vec::with_capacity(alloc, values.len())?;
    for value in values {
        let read = step(value)?;
        all.push(read)?;
    }
    Ok(List::from_vec(all))
}

// The prefixes of an array, or the first part that is not as it should be.
fn prefixes(alloc: Global, values: &[Value]) -> Result<List<Prefix>, EvidenceFault>
    ensures { GivesUnless EvidenceFault.NoMemory (λ v. v) result (each prefix_of (map view values.now)) }
{
    let mut all = Vec::with_capacity(alloc, values.len())?;
    for value in values {
        let read = prefix(value)?;
        all.push(read)?;
    }
    Ok(List::from_vec(all))
}

// The numbers of an array, each of which is at most so great.
fn numbers(
    alloc: Global,
    field: Field,
    most: u32,
    values: &[Value],
) -> Result<List<Option<u32>>, EvidenceFault>
    ensures { GivesUnless EvidenceFault.NoMemory (λ v. v) result (each (number_of field 0 most) (map view values.now)) }
{
    let mut all = Vec::with_capacity(alloc, values.len())?;
    for value in values {
        let read = number(field, 0, most, value)?;
        all.push(read)?;
    }
    Ok(List::from_vec(all))
}

// Whether each number is greater than those before it.
fn ascend(numbers: &[Option<u32>]) -> bool
    ensures { result ≡ ascend_from 0 numbers.now }
{
    let mut least = 0;
    for entry in numbers {
        if let Some(number) = entry {
            if u64::from(*number) < least {
                return false;
            }
            least = u64::from(*number) + 1;
        }
    }
    true
}

// Whether some number is out of its range.
fn some_is_out(numbers: &[Option<u32>]) -> bool
    ensures { result ≡ list_any is_none numbers.now }
{
    numbers.iter().any(|number| number.is_none())
}

/// Whether the locations ascend, where all are in their range.
pub fn are_in_order(origins: &[Option<u32>]) -> bool
    ensures { result ≡ in_order origins.now }
{
    some_is_out(origins) || ascend(origins)
}

// The locations of the origins, ascending.
#[tactic(auto, unfolding(crate::specs::Shape::origins_of))]
fn origins(alloc: Global, values: &[Value]) -> Result<List<Option<u32>>, EvidenceFault>
    ensures { GivesUnless EvidenceFault.NoMemory (λ v. v) result (origins_of (map view values.now)) }
{
    let origins = numbers(alloc, Field::Origins, 767, values)?;
    if are_in_order(origins.as_slice()) {
        Ok(origins)
    } else {
        Err(EvidenceFault::Shape(Field::Origins))
    }
}

// Whether the value is an object with so many keys.
fn has_size(value: &Value, size: usize) -> bool
    ensures { result ≡ is_of_size size (view value.now) }
{
    match value.as_object() {
        Some(members) => member_count(members) == size,
        None => false,
    }
}

// Whether the value is an object of as many keys as a case has, with the first of them.
#[tactic(auto, unfolding(crate::specs::Shape::begins_as_case))]
fn begins_as_case(value: &Value) -> bool
    ensures { result ≡ begins_with_keys (view value.now) }
{
    has_size(value, 7) && has(value, "external") && has(value, "nodes") && has(value, "origins")
}

// Whether the value is an object with exactly the keys of a case.
#[tactic(auto, unfolding(crate::specs::Shape::is_case))]
fn is_case(value: &Value) -> bool
    ensures { result ≡ has_case_keys (view value.now) }
{
    begins_as_case(value)
        && has(value, "prefixes")
        && has(value, "starts")
        && has(value, "statement")
        && has(value, "steps")
}

// The nodes, origins and prefixes of a case.
#[tactic(auto, unfolding(crate::specs::Shape::places_of))]
fn places(alloc: Global, value: &Value) -> Result<RawPlaces, EvidenceFault>
    ensures { GivesUnless EvidenceFault.NoMemory (λ p. p) result (places_of (view value.now)) }
{
    let nodes = nodes(alloc, items(value, Field::Nodes, "nodes")?)?;
    let origins = origins(alloc, items(value, Field::Origins, "origins")?)?;
    let prefixes = prefixes(alloc, items(value, Field::Prefixes, "prefixes")?)?;
    Ok(RawPlaces {
        nodes,
        origins,
        prefixes,
    })
}

// The starts, statement and steps of a case.
#[tactic(auto, unfolding(crate::specs::Shape::ways_of))]
fn ways(alloc: Global, value: &Value) -> Result<RawWays, EvidenceFault>
    ensures { GivesUnless EvidenceFault.NoMemory (λ w. w) result (ways_of (view value.now)) }
{
    let starts = items(value, Field::Starts, "starts")?;
    let starts = numbers(alloc, Field::Starts, u32::MAX, starts)?;
    let statement = member(value, Field::Statement, "statement")?;
    let statement = number(Field::Statement, 1, u32::MAX, statement)?;
    let steps = steps(alloc, items(value, Field::Steps, "steps")?)?;
    Ok(RawWays {
        starts,
        statement,
        steps,
    })
}

// The case that an entry of `cases` says.
#[tactic(auto, unfolding(crate::specs::Shape::case_of))]
fn case(alloc: Global, value: &Value) -> Result<RawCase, EvidenceFault>
    ensures { GivesUnless EvidenceFault.NoMemory (λ c. c) result (case_of (view value.now)) }
{
    if !is_case(value) {
        return Err(EvidenceFault::Shape(Field::Case));
    }
    let Some(external) = member(value, Field::External, "external")?.as_bool() else {
        return Err(EvidenceFault::Shape(Field::External));
    };
    let places = places(alloc, value)?;
    let ways = ways(alloc, value)?;
    Ok(RawCase {
        external,
        nodes: places.nodes,
        origins: places.origins,
        prefixes: places.prefixes,
        starts: ways.starts,
        statement: ways.statement,
        steps: ways.steps,
    })
}

// The cases of an array, or the first part that is not as it should be.
fn cases(alloc: Global, values: &[Value]) -> Result<List<RawCase>, EvidenceFault>
    ensures { GivesUnless EvidenceFault.NoMemory (λ v. v) result (each case_of (map view values.now)) }
{
    let mut all = List::new(alloc);
    for value in values {
        let read = case(alloc, value)?;
        all.push(read)?;
    }
    Ok(all)
}

// Whether the value is an object with exactly the keys of evidence.
#[tactic(auto, unfolding(crate::specs::Shape::is_evidence))]
fn is_evidence(value: &Value) -> bool
    ensures { result ≡ has_evidence_keys (view value.now) }
{
    has_size(value, 2) && has(value, "cases") && has(value, "version")
}

// The version of evidence.
#[tactic(auto, unfolding(crate::specs::Shape::version_of))]
fn version(value: &Value) -> Result<Option<u32>, EvidenceFault>
    ensures { GivesUnless EvidenceFault.NoMemory (λ n. n) result (version_of (view value.now)) }
{
    let version = member(value, Field::Version, "version")?;
    number(Field::Version, 0, u32::MAX, version)
}

/// The text that a value has the shape of, or the first part that is not as it should be.
#[tactic(auto, unfolding(crate::specs::Shape::shape_of))]
pub fn shape(alloc: Global, value: &Value) -> Result<RawEvidence, EvidenceFault>
    ensures { GivesUnless EvidenceFault.NoMemory (λ e. e) result (shape_of (view value.now)) }
{
    if !is_evidence(value) {
        return Err(EvidenceFault::Shape(Field::Top));
    }
    let cases = cases(alloc, items(value, Field::Cases, "cases")?)?;
    let version = version(value)?;
    Ok(RawEvidence { cases, version })
}
