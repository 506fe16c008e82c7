//! Rows that are met, noted one by one at their places.
ghost use Rattle.std.specs.Prelude.{◌≡◌, ◌<◌, ◌++◌, ◌∷◌, [], IfOk, List as Items, None, OnOk, false, length, min, not, set, slice_get};
ghost use Rattle.std.specs.List.{position_or_len};
ghost use Rattle.std.specs.Option.{option_map_or};
ghost use Rattle.compare_base.specs.declared.rows.Place.{Place as PlainPlace};
ghost use Rattle.compare_base.specs.Same.{same_place, same_row};
ghost use Rattle.pair_rows.specs.declared.values.FirstRow.{FirstRow as PlainFirst};
ghost use Rattle.pair_rows.specs.declared.values.Met.{Met};
ghost use Rattle.pair_rows.specs.Meetings.{AreFirst, earlier, met_if};
ghost use Rattle.place_rows.specs.Noted.{AreNoted, AreNotedAt, rows_for};

use crate::row::{is_earlier, is_row};
use compare_base::{Place, Row};
use indexmap::IndexSet;
use input_output::NoMemory;
use net_base::Loc;
use pair_rows::FirstRow;
use std::alloc::Global;

// Where a row has its place among others: behind those that are earlier.
fn place_of(rows: &[FirstRow], row: Row) -> usize
    ensures { result ≡ position_or_len (λ (x : PlainFirst). not (earlier x.row row)) rows.now }
{
    rows.iter()
        .position(|known| !is_earlier(known.row, row))
        .unwrap_or(rows.len())
}

// Whether a row stands at a place among others.
fn is_at(rows: &[FirstRow], index: usize, row: Row) -> bool
    ensures { result ≡ option_map_or (λ (x : PlainFirst). same_row x.row row) (slice_get rows.now index) false }
{
    match rows.get(index) {
        Some(known) => known.row == row,
        None => false,
    }
}

// Notes that a row is met with a node.
fn lower(rows: &mut Vec<FirstRow>, index: usize, node: u32)
    requires { index < length rows.old.items }
    ensures { (x : PlainFirst) → slice_get rows.old.items index ≡ Some x → rows.new.items ≡ set rows.old.items index (record { row = x.row; node = min x.node node }) }
{
    rows[index].node = rows[index].node.min(node);
}

// Notes a row of a place that is met with a node.
fn note(rows: &mut Vec<FirstRow>, row: Row, node: u32) -> Result<(), NoMemory>
    ensures { (mets : Items Met) (place : PlainPlace) → AreFirst mets rows.old.items
        → OnOk result (AreFirst (mets ++ record { place = place; row = row; node = node } ∷ []) rows.new.items) }
{
    let index = place_of(rows, row);
    if is_at(rows, index, row) {
        lower(rows, index, node);
        return Ok(());
    }
    rows.insert(index, FirstRow { row, node })?;
    Ok(())
}

// The number of a place. A new one comes behind the others and has no rows yet.
fn number_of(
    alloc: Global,
    places: &mut IndexSet<Place>,
    rows: &mut Vec<Vec<FirstRow>>,
    place: &Place,
) -> Result<usize, NoMemory>
    requires size { length places.old.keys ≡ length rows.old.items }
    ensures size { OnOk result (length places.new.keys ≡ length rows.new.items) }
    ensures number { IfOk result (λ number. number ≡ position_or_len (same_place place.now) places.new.keys) }
    ensures within { IfOk result (λ number. number < length rows.new.items) }
    ensures kept { OnOk result ((q : PlainPlace) → rows_for places.new.keys rows.new.items q ≡ rows_for places.old.keys rows.old.items q) }
{
    if let Some(number) = places.get_index_of(place) {
        return Ok(number);
    }
    let number = rows.len();
    // put together anew, since the prover has to meet the types of its parts here
    let Place { router, peer } = *place;
    places.insert(Place { router, peer })?;
    rows.push(Vec::new(alloc))?;
    Ok(number)
}

/// Notes a row that is met at a router with a node, if some policy permits its walks. What is no router has no rows.
pub(crate) fn note_in(
    routers: &mut Vec<Vec<FirstRow>>,
    at: Loc,
    row: Row,
    node: u32,
) -> Result<(), NoMemory>
    ensures size { OnOk result (length routers.new.items ≡ length routers.old.items) }
    ensures noted { (mets : Items Met) → AreNotedAt mets routers.old.items
        → OnOk result (AreNotedAt (mets ++ met_if (record { place = record { router = at; peer = None }; row = row; node = node })) routers.new.items) }
{
    let place = at.number() as usize;
    if is_row(row) && place < routers.len() {
        note(&mut routers[place], row, node)?;
    }
    Ok(())
}

/// Notes a row that is met at a place with a node, if some policy permits its walks.
pub(crate) fn note_at(
    alloc: Global,
    places: &mut IndexSet<Place>,
    rows: &mut Vec<Vec<FirstRow>>,
    place: &Place,
    row: Row,
    node: u32,
) -> Result<(), NoMemory>
    requires size { length places.old.keys ≡ length rows.old.items }
    ensures size { OnOk result (length places.new.keys ≡ length rows.new.items) }
    ensures noted { (mets : Items Met) → AreNoted mets places.old.keys rows.old.items
        → OnOk result (AreNoted (mets ++ met_if (record { place = place.now; row = row; node = node })) places.new.keys rows.new.items) }
{
    if !is_row(row) {
        return Ok(());
    }
    let number = number_of(alloc, places, rows, place)?;
    note(&mut rows[number], row, node)?;
    Ok(())
}
