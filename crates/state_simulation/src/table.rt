//! The table of a relation.
ghost use Rattle.std.specs.Prelude.{◌≡◌, ◌↔◌, ◌||◌, IsTrue, length, not};

use bit_rows::Rows;
use net_base::{List, Loc, LocSet};
use std::marker::Model;

/// Which of two nodes at one location of a graph may stand at least as high as the other.
#[derive(Drop)]
pub struct Relation {
    places: List<Loc>,
    claimed: LocSet,
    rows: Rows,
}

impl Model for Relation {
    ghost use Rattle.std.specs.Prelude.{length};
    ghost use Rattle.state_simulation.specs.Held.{IsSquare, PlainRelation};

    ghost Value = { PlainRelation };

    ghost view = { λ r. record { places = r.places; claimed = r.claimed; rows = r.rows } };

    ghost invariant = { λ r. IsSquare (length r.places) r.rows };
}

impl Relation {
    ghost use Rattle.state_simulation.specs.Held.{IsSquare, HasEach, HasEachOf, are_together, has};

    /// The relation of these rows.
    pub(crate) fn new(places: List<Loc>, claimed: LocSet, rows: Rows) -> Relation
        requires { IsSquare (length places) rows }
        ensures { result ≡ record { places = places; claimed = claimed; rows = rows } }
    {
        Relation {
            places,
            claimed,
            rows,
        }
    }

    /// A row for each node, with a bit for each node at its location that may stand at least as high.
    pub fn rows(&self) -> &Rows
        ensures rows { result.now ≡ self.now.rows }
        ensures square { IsSquare (length self.now.places) self.now.rows }
    {
        &self.rows
    }

    /// The claimed locations for which the relation was made.
    pub fn claimed(&self) -> &LocSet
        ensures { result.now ≡ self.now.claimed }
    {
        &self.claimed
    }

    /// Whether the first node may stand at least as high as the second. It may not where one of the numbers
    /// is no node's, or the nodes stand at different locations.
    pub fn has(&self, better: u32, worse: u32) -> bool
        ensures { result ≡ has self.now better worse }
    {
        self.are_together(better, worse) && self.rows.get(worse, better)
    }

    /// Whether of each two nodes at one location, the same node twice included, one may stand at least as
    /// high as the other.
    pub fn is_total(&self) -> bool
        ensures { IsTrue result ↔ HasEach self.now }
    {
        for m in 0..self.places.as_slice().len() as u32 {
            if !self.has_each_of(m) {
                return false;
            }
        }
        true
    }

    // Whether it has a direction of the node and each other at its location.
    fn has_each_of(&self, m: u32) -> bool
        ensures { IsTrue result ↔ HasEachOf self.now m }
    {
        for n in 0..self.places.as_slice().len() as u32 {
            if !self.has_one_of(m, n) {
                return false;
            }
        }
        true
    }

    // Whether it has a direction of two nodes, if they stand at one location.
    fn has_one_of(&self, m: u32, n: u32) -> bool
        ensures { result ≡ (not (are_together self.now m n) || (has self.now m n || has self.now n m)) }
    {
        !self.are_together(m, n) || self.has(m, n) || self.has(n, m)
    }

    // Whether these are nodes at one location.
    fn are_together(&self, m: u32, n: u32) -> bool
        ensures { result ≡ are_together self.now m n }
    {
        let places = self.places.as_slice();
        (m as usize) < places.len()
            && (n as usize) < places.len()
            && places[m as usize] == places[n as usize]
    }
}
