//! The rows of all places.
ghost use Rattle.std.specs.Prelude.{◌≡◌, ◌++◌, [], IfOk, List as Items, OnOk, length};
ghost use Rattle.std.specs.List.{flat_map};
ghost use Rattle.pair_rows.specs.declared.values.Met.{Met};
ghost use Rattle.pair_rows.specs.Meetings.{node_mets, step_mets};
ghost use Rattle.place_rows.specs.Noted.{AreNoted, AreNotedAt, rows_at};
ghost use Rattle.place_rows.specs.Told.{told};

use crate::noting::{note_at, note_in};
use crate::row::row_of;
use compare_base::Place;
use graph_base::Graph;
use indexmap::IndexSet;
use input_output::NoMemory;
use net_base::Net;
use pair_graph::PairGraph;
use pair_rows::FirstRow;
use std::alloc::{AllocError, Global};

/// The rows of each router and of each session to a peer.
#[derive(Drop)]
pub struct PlaceRows {
    /// For each router, in order of location, its rows.
    routers: Vec<Vec<FirstRow>>,
    /// The sessions that have rows.
    places: IndexSet<Place>,
    /// For each of these its rows.
    sessions: Vec<Vec<FirstRow>>,
    ghost size: { length places.keys ≡ length sessions.items },
}

// So many places without rows.
fn no_rows(alloc: Global, count: usize) -> Result<Vec<Vec<FirstRow>>, AllocError>
    ensures count { IfOk result (λ rows. length rows.items ≡ count) }
    ensures none { IfOk result (λ rows. AreNotedAt [] rows.items) }
{
    let mut rows = Vec::with_capacity(alloc, count)?;
    for _ in 0..count {
        rows.push(Vec::new(alloc))?;
    }
    Ok(rows)
}

// Notes the rows of the nodes at routers.
fn note_nodes(
    routers: &mut Vec<Vec<FirstRow>>,
    first: &Graph,
    second: &Graph,
    both: &PairGraph,
) -> Result<(), NoMemory>
    requires none { AreNotedAt [] routers.old.items }
    requires pairs { length both.now.pairs ≡ length both.now.graph.nodes }
    ensures size { OnOk result (length routers.new.items ≡ length routers.old.items) }
    ensures noted { OnOk result (AreNotedAt (node_mets first.now second.now both.now.pairs 0) routers.new.items) }
{
    let pairs = both.pairs.as_slice();
    for node in 0..both.graph.nodes().len() {
        let pair = pairs[node];
        note_in(
            routers,
            pair.place,
            row_of(first, second, pair),
            node as u32,
        )?;
    }
    Ok(())
}

// Notes the rows to which the steps to peers lead, each at the session from where the step leads to where it ends.
fn note_steps(
    alloc: Global,
    net: &Net,
    places: &mut IndexSet<Place>,
    rows: &mut Vec<Vec<FirstRow>>,
    first: &Graph,
    second: &Graph,
    both: &PairGraph,
) -> Result<(), NoMemory>
    requires size { length places.old.keys ≡ length rows.old.items }
    requires none { AreNoted [] places.old.keys rows.old.items }
    requires pairs { length both.now.pairs ≡ length both.now.graph.nodes }
    ensures size { OnOk result (length places.new.keys ≡ length rows.new.items) }
    ensures noted { OnOk result (AreNoted (told net.now (flat_map (step_mets first.now second.now both.now.pairs) both.now.graph.steps)) places.new.keys rows.new.items) }
{
    let pairs = both.pairs.as_slice();
    for (from, to) in both.graph.steps() {
        let end = pairs[*to as usize];
        if net.is_peer(end.place) {
            let place = Place {
                router: pairs[*from as usize].place,
                peer: Some(end.place),
            };
            note_at(
                alloc,
                places,
                rows,
                &place,
                row_of(first, second, end),
                *from,
            )?;
        }
    }
    Ok(())
}

impl PlaceRows {
    ghost use Rattle.std.specs.Prelude.{IsTrue, false};
    ghost use Rattle.compare_base.specs.declared.rows.Place.{Place as PlainPlace};
    ghost use Rattle.pair_rows.specs.Meetings.{AreFirst, all_mets, mets_at};
    ghost use Rattle.place_rows.specs.Told.{is_told};
    ghost use Rattle.place_rows.specs.Rows.{rows_of};

    /// The rows of each router and of each session to a peer in the graph of the pairs of nodes of two graphs. Other places have none.
    pub fn new(
        alloc: Global,
        net: &Net,
        first: &Graph,
        second: &Graph,
        both: &PairGraph,
    ) -> Result<PlaceRows, NoMemory>
        requires pairs { length both.now.pairs ≡ length both.now.graph.nodes }
        ensures rows { IfOk result (λ table. (place : PlainPlace) → IsTrue (is_told net.now place.router place.peer)
            → AreFirst (mets_at (all_mets first.now second.now both.now.pairs both.now.graph) place) (rows_of table place)) }
        ensures others { IfOk result (λ table. (place : PlainPlace) → is_told net.now place.router place.peer ≡ false → rows_of table place ≡ []) }
    {
        let mut routers = no_rows(alloc, net.routers().len())?;
        note_nodes(&mut routers, first, second, both)?;
        let mut places = IndexSet::new(alloc);
        let mut sessions = Vec::new(alloc);
        note_steps(alloc, net, &mut places, &mut sessions, first, second, both)?;
        Ok(PlaceRows {
            routers,
            places,
            sessions,
        })
    }

    // The rows of a router.
    fn at(&self, router: usize) -> &[FirstRow]
        ensures { result.now ≡ rows_at self.now.routers.items router }
    {
        match self.routers.get(router) {
            Some(rows) => rows.as_slice(),
            None => &[],
        }
    }

    /// The rows of a place, in order, each with its least node.
    pub fn rows(&self, place: Place) -> &[FirstRow]
        ensures { result.now ≡ rows_of self.now place }
    {
        if place.peer.is_none() {
            return self.at(place.router.number() as usize);
        }
        match self.places.get_index_of(&place) {
            Some(number) => self.sessions[number].as_slice(),
            None => &[],
        }
    }
}
