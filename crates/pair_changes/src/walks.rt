//! The walks by which kinds are shown.
ghost use Rattle.std.specs.Prelude.{◌≡◌, ◌<◌, ◌≤◌, IfOk, IsTrue, length, nat_lt, if◌then◌else◌};
ghost use Rattle.std.specs.List.{find};
ghost use Rattle.list_law.specs.Members.{IsIn};
ghost use Rattle.graph_base.specs.Walks.{IsEnteredFromBefore};
ghost use Rattle.compare_base.specs.declared.rows.Kind.{Kind as PlainKind};
ghost use Rattle.compare_base.specs.declared.rows.Place.{Place as PlainPlace};
ghost use Rattle.compare_base.specs.declared.rows.Row.{Row as PlainRow};
ghost use Rattle.compare_base.specs.Same.{same_row};
ghost use Rattle.pair_rows.specs.declared.values.FirstRow.{FirstRow as PlainFirst};
ghost use Rattle.place_rows.specs.Rows.{rows_of};
ghost use Rattle.pair_changes.specs.Changes.{IsExample, paths as paths_of};
ghost use Rattle.pair_changes.specs.Walks.{AreAllShown, AreWalks, IsShown, IsWalkFrom};

use compare_base::{Kind, Place, Row};
use input_output::NoMemory;
use net_base::{List, Loc};
use pair_graph::PairGraph;
use pair_rows::FirstRow;
use place_rows::PlaceRows;
use policy_base::is_loop_free;
use std::alloc::Global;

// A row among those of a place, with its least node.
fn first_of(rows: &[FirstRow], row: &Row) -> Option<FirstRow>
    ensures { result ≡ find (λ (x : PlainFirst). same_row x.row row.now) rows.now }
{
    rows.iter().copied().find(|first| first.row == *row)
}

// The least node with which a row of a place is met.
fn node_of(rows: &[FirstRow], row: &Row) -> u32
    requires { (x : PlainFirst) × IsIn rows.now x × (x.row ≡ row.now) }
    ensures { (x : PlainFirst) × IsIn rows.now x × (x.row ≡ row.now) × (x.node ≡ result) }
{
    let Some(first) = first_of(rows, row) else {
        unreachable!()
    };
    first.node
}

// The walk by which a node is shown, from the peer where the place is a session.
fn walk_from(
    alloc: Global,
    both: &PairGraph,
    peer: Option<Loc>,
    node: u32,
) -> Result<List<Loc>, NoMemory>
    requires { node < length both.now.graph.nodes }
    ensures { IfOk result (IsWalkFrom both.now.graph peer node) }
{
    let walk = both.walk(alloc, node)?;
    let Some(peer) = peer else {
        return Ok(walk);
    };
    let mut places = walk.into_vec();
    places.insert(0, peer)?;
    Ok(List::from_vec(places))
}

// For each of some rows of a place the walk of its least node.
fn walks_of(
    alloc: Global,
    both: &PairGraph,
    firsts: &[FirstRow],
    peer: Option<Loc>,
    rows: &[Row],
) -> Result<List<List<Loc>>, NoMemory>
    requires nodes { (x : PlainFirst) → IsIn firsts.now x → x.node < length both.now.graph.nodes }
    requires rows { (row : PlainRow) → IsIn rows.now row → (x : PlainFirst) × IsIn firsts.now x × (x.row ≡ row) }
    ensures { IfOk result (AreWalks both.now.graph firsts.now peer rows.now) }
{
    let mut walks = List::new(alloc);
    for place in 0..rows.len() {
        let node = node_of(firsts, &rows[place]);
        walks.push(walk_from(alloc, both, peer, node)?)?;
    }
    Ok(walks)
}

// For each of some rows the walk by which a place has it.
fn walks_at(
    alloc: Global,
    both: &PairGraph,
    table: &PlaceRows,
    place: &Place,
    rows: &[Row],
) -> Result<List<List<Loc>>, NoMemory>
    requires nodes { (x : PlainFirst) → IsIn (rows_of table.now place.now) x → x.node < length both.now.graph.nodes }
    requires rows { (row : PlainRow) → IsIn rows.now row → (x : PlainFirst) × IsIn (rows_of table.now place.now) x × (x.row ≡ row) }
    ensures { IfOk result (AreWalks both.now.graph (rows_of table.now place.now) place.now.peer rows.now) }
{
    walks_of(alloc, both, table.rows(*place), place.peer, rows)
}

// How many walks have no loop.
fn paths(walks: &[List<Loc>]) -> usize
    ensures { result ≡ paths_of walks.now }
{
    let mut count = 0;
    for walk in walks {
        if is_loop_free(walk.as_slice()) {
            count += 1;
        }
    }
    count
}

// The first walks, unless the others have more without a loop.
fn more_paths(walks: List<List<Loc>>, others: List<List<Loc>>) -> List<List<Loc>>
    ensures { result ≡ (if nat_lt (paths_of walks) (paths_of others) then others else walks) }
{
    if paths(walks.as_slice()) < paths(others.as_slice()) {
        others
    } else {
        walks
    }
}

// Whether these walks, one for each of some rows, all have no loop.
fn all_paths(walks: &[List<Loc>], rows: &[Row]) -> bool
    ensures { IsTrue result → length rows.now ≤ paths_of walks.now }
{
    rows.len() <= paths(walks)
}

// The walks of the first of some places that shows most rows without a loop. Behind one that shows all so no other has to be looked at.
fn example(
    alloc: Global,
    both: &PairGraph,
    table: &PlaceRows,
    places: &[Place],
    rows: &[Row],
) -> Result<List<List<Loc>>, NoMemory>
    requires some { 0 < length places.now }
    requires nodes { (place : PlainPlace) (x : PlainFirst) → IsIn (rows_of table.now place) x → x.node < length both.now.graph.nodes }
    requires rows { (place : PlainPlace) (row : PlainRow) → IsIn places.now place → IsIn rows.now row
        → (x : PlainFirst) × IsIn (rows_of table.now place) x × (x.row ≡ row) }
    requires entered { IsEnteredFromBefore both.now.graph }
    ensures { IfOk result (IsExample (λ place. AreWalks both.now.graph (rows_of table.now place) place.peer rows.now) places.now) }
{
    let mut walks = walks_at(alloc, both, table, &places[0], rows)?;
    for index in 1..places.len() {
        if all_paths(walks.as_slice(), rows) {
            return Ok(walks);
        }
        let others = walks_at(alloc, both, table, &places[index], rows)?;
        walks = more_paths(walks, others);
    }
    Ok(walks)
}

// A kind with the walks that show it.
fn shown_kind(
    alloc: Global,
    both: &PairGraph,
    table: &PlaceRows,
    kind: &Kind,
) -> Result<Kind, NoMemory>
    requires some { 0 < length kind.now.places }
    requires nodes { (place : PlainPlace) (x : PlainFirst) → IsIn (rows_of table.now place) x → x.node < length both.now.graph.nodes }
    requires rows { (place : PlainPlace) (row : PlainRow) → IsIn kind.now.places place → IsIn kind.now.rows row
        → (x : PlainFirst) × IsIn (rows_of table.now place) x × (x.row ≡ row) }
    requires entered { IsEnteredFromBefore both.now.graph }
    ensures { IfOk result (IsShown both.now.graph (rows_of table.now) kind.now) }
{
    let places = kind.places.as_slice();
    let walks = example(alloc, both, table, places, kind.rows.as_slice())?;
    Ok(Kind {
        words: kind.words,
        rows: kind.rows.copy(alloc)?,
        places: kind.places.copy(alloc)?,
        walks,
    })
}

/// Kinds with the walks that show them.
pub(crate) fn shown_kinds(
    alloc: Global,
    both: &PairGraph,
    table: &PlaceRows,
    kinds: &[Kind],
) -> Result<List<Kind>, NoMemory>
    requires some { (kind : PlainKind) → IsIn kinds.now kind → 0 < length kind.places }
    requires nodes { (place : PlainPlace) (x : PlainFirst) → IsIn (rows_of table.now place) x → x.node < length both.now.graph.nodes }
    requires rows { (kind : PlainKind) (place : PlainPlace) (row : PlainRow) → IsIn kinds.now kind → IsIn kind.places place → IsIn kind.rows row
        → (x : PlainFirst) × IsIn (rows_of table.now place) x × (x.row ≡ row) }
    requires entered { IsEnteredFromBefore both.now.graph }
    ensures { IfOk result (AreAllShown both.now.graph (rows_of table.now) kinds.now) }
{
    let mut shown = List::new(alloc);
    for kind in kinds {
        shown.push(shown_kind(alloc, both, table, kind)?)?;
    }
    Ok(shown)
}
