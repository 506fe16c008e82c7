//! Places that differ alike.
ghost use Rattle.std.specs.Prelude.{◌≡◌, ◌++◌, ◌∷◌, [], IfOk, IsTrue, List as Items, None, OnOk, Option, Some};
ghost use Rattle.std.specs.List.{position};
ghost use Rattle.list_law.specs.Members.{IsIn};
ghost use Rattle.compare_base.specs.declared.rows.Place.{Place as PlainPlace};
ghost use Rattle.pair_rows.specs.Meetings.{rows_alone as alone};
ghost use Rattle.place_rows.specs.Rows.{rows_of};
ghost use Rattle.pair_changes.specs.declared.ways.Way.{Way as PlainWay};
ghost use Rattle.pair_changes.specs.Changes.{AreInOrder, ComesFirst};
ghost use Rattle.pair_changes.specs.Kinds.{AreKinds, IsNumberOf, is_of as is_kind_of, way_by};

use crate::ways::Way;
use compare_base::{Kind, Place};
use comparison::{same_rows, same_words};
use input_output::NoMemory;
use net_base::List;
use pair_rows::FirstRow;
use place_rows::PlaceRows;
use std::alloc::{AllocError, Global};

// Whether a kind is of places that differ so.
fn is_of(way: &Way, kind: &Kind) -> bool
    ensures { result ≡ is_kind_of way.now kind.now }
{
    same_words(kind.words, way.words) && same_rows(kind.rows.as_slice(), way.rows.as_slice())
}

// The number of the kind of places that differ so, if there is one.
fn number_of(way: &Way, kinds: &[Kind]) -> Option<usize>
    ensures { result ≡ position (is_kind_of way.now) kinds.now }
{
    kinds.iter().position(|kind| is_of(way, kind))
}

// A kind of one place, with no walks yet.
fn kind_of(alloc: Global, way: Way, place: &Place) -> Result<Kind, AllocError>
    ensures { IfOk result (λ kind. kind ≡ record { words = way.words; rows = way.rows; places = place.now ∷ []; walks = [] }) }
{
    let Place { router, peer } = *place;
    let mut places = List::new(alloc);
    places.push(Place { router, peer })?;
    Ok(Kind {
        words: way.words,
        rows: way.rows,
        places,
        walks: List::new(alloc),
    })
}

// Puts a place that differs to its kind, or into a new one behind the others, and gives the kind's number.
fn add_place(
    alloc: Global,
    kinds: &mut Vec<Kind>,
    place: &Place,
    way: Way,
) -> Result<usize, NoMemory>
    ensures kinds { (way_at : PlainPlace → Option PlainWay) (done : Items PlainPlace) → AreKinds way_at done kinds.old.items → way_at place.now ≡ Some way
        → ((q : PlainPlace) → IsIn done q → ComesFirst q place.now) → OnOk result (AreKinds way_at (done ++ place.now ∷ []) kinds.new.items) }
    ensures number { IfOk result (λ n. IsNumberOf kinds.new.items (Some way) (Some n)) }
{
    if let Some(number) = number_of(&way, kinds.as_slice()) {
        kinds[number].places.push(*place)?;
        return Ok(number);
    }
    let number = kinds.len();
    kinds.push(kind_of(alloc, way, place)?)?;
    Ok(number)
}

// Puts a place to its kind, if it differs, and gives the kind's number.
fn add_if(
    alloc: Global,
    kinds: &mut Vec<Kind>,
    place: &Place,
    way: Option<Way>,
) -> Result<Option<usize>, NoMemory>
    ensures kinds { (way_at : PlainPlace → Option PlainWay) (done : Items PlainPlace) → AreKinds way_at done kinds.old.items → way_at place.now ≡ way
        → ((q : PlainPlace) → IsIn done q → ComesFirst q place.now) → OnOk result (AreKinds way_at (done ++ place.now ∷ []) kinds.new.items) }
    ensures number { IfOk result (IsNumberOf kinds.new.items way) }
{
    match way {
        Some(way) => Ok(Some(add_place(alloc, kinds, place, way)?)),
        None => Ok(None),
    }
}

// Puts a place to the kind with this number, of places that differ as it does, or to none where it doesn't differ.
fn join(kinds: &mut Vec<Kind>, number: Option<usize>, place: &Place) -> Result<(), NoMemory>
    requires { (way : Option PlainWay) × IsNumberOf kinds.old.items way number }
    ensures kinds { (way_at : PlainPlace → Option PlainWay) (done : Items PlainPlace) → AreKinds way_at done kinds.old.items
        → IsNumberOf kinds.old.items (way_at place.now) number → OnOk result (AreKinds way_at (done ++ place.now ∷ []) kinds.new.items) }
    ensures number { (way : Option PlainWay) → IsNumberOf kinds.old.items way number → OnOk result (IsNumberOf kinds.new.items way number) }
{
    let Some(number) = number else {
        return Ok(());
    };
    kinds[number].places.push(*place)?;
    Ok(())
}

// Whether two places have the same rows.
fn are_alike(one: &[FirstRow], other: &[FirstRow]) -> bool
    ensures { IsTrue result → alone one.now ≡ alone other.now }
{
    if one.len() != other.len() {
        return false;
    }
    for i in 0..one.len() {
        if one[i].row != other[i].row {
            return false;
        }
    }
    true
}

/// The kinds of the places that differ, in order of their first places, with no walks yet. Many places one after the other have the same
/// rows, and then differ in the same way.
pub(crate) fn kinds_of(
    alloc: Global,
    table: &PlaceRows,
    places: &[Place],
) -> Result<Vec<Kind>, NoMemory>
    ensures { AreInOrder places.now → IfOk result (λ kinds. AreKinds (λ q. way_by (alone (rows_of table.now q))) places.now kinds.items) }
{
    let mut kinds = Vec::new(alloc);
    let mut last: &[FirstRow] = &[];
    let mut number = None;
    for place in places {
        let rows = table.rows(*place);
        if are_alike(last, rows) {
            join(&mut kinds, number, place)?;
        } else {
            number = add_if(alloc, &mut kinds, place, Way::of(alloc, rows)?)?;
            last = rows;
        }
    }
    Ok(kinds)
}
