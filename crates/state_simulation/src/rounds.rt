//! The rounds.
ghost use Rattle.std.specs.Prelude.{◌≡◌, ◌+◌, ◌<◌, ◌≤◌, ℕ, suc, Bool, None, Some, false, if◌then◌else◌, IfOk, IsTrue, OnOk, length};
ghost use Rattle.bit_rows.specs.Tables.{IsSameSize, PlainRows, has_at};
ghost use Rattle.graph_base.specs.Graphs.{PlainGraph};
ghost use Rattle.graph_base.specs.Runs.{place_of};
ghost use Rattle.net_base.specs.declared.loc.LocSet.{LocSet as Claimed};
ghost use Rattle.relation_law.specs.Rounds.{IsReach, TakesNothingMore};
ghost use Rattle.relation_law.specs.Views.{view_of};
ghost use Rattle.state_simulation.specs.Held.{IsSquare};
ghost use Rattle.state_simulation.specs.Stages.{AreAt, AreFirst, AreSized, IsOpen, Knows, asks_later as asks_later_in, bits_set, has_either};
ghost use Rattle.state_simulation.specs.Targets.{AreLeft, AreNodeRows, is_touched};

use crate::copies::put_rows;
use crate::maps::Maps;
use crate::pairs::ranked_pairs;
use crate::taking::{put_each, take_each};
use bit_rows::{Rows, is_set};
use input_output::NoMemory;
use net_base::LocSet;
use reach_prune::{Way, rows_along};
use std::alloc::{AllocError, Global};

/// What is left after some rounds, where the last one took something away, and what the next one knows.
#[derive(Drop)]
pub struct Rounds {
    /// A row for each node, with a bit for each node at its location that is left above it.
    pub left: Rows,
    next: Rows,
    /// For each node whether the last round took something from its row; true for each before the first round.
    pub touched: Vec<bool>,
    /// A row for each node, with a bit for each node that can be reached from it, once that was asked for.
    pub onwards: Option<Rows>,
    mask: Vec<u64>,
    looped: Vec<u64>,
}

impl Rounds {
    /// All pairs of one location, before the first round.
    pub fn new(alloc: Global, maps: &Maps, claimed: &LocSet) -> Result<Rounds, NoMemory>
        ensures sized { IfOk result (AreSized maps.now.graph.now) }
        ensures onwards { IfOk result (λ rounds. rounds.onwards ≡ None) }
        ensures first { IfOk result (λ rounds. (reach : ℕ → ℕ → Bool) → AreAt maps.now.graph.now claimed.now reach 0 rounds) }
    {
        let left = ranked_pairs(alloc, maps, &LocSet::new())?;
        let next = ranked_pairs(alloc, maps, claimed)?;
        let touched = vec![in alloc; true; maps.graph().nodes().len()]?;
        let mask = vec![in alloc; 0; left.width()]?;
        let looped = vec![in alloc; 0; left.width()]?;
        Ok(Rounds {
            left,
            next,
            touched,
            onwards: None,
            mask,
            looped,
        })
    }

    /// Finds what can be reached from each node, unless that is known. The first round doesn't ask for it.
    pub fn look_onwards(&mut self, alloc: Global, maps: &Maps) -> Result<(), NoMemory>
        requires { AreSized maps.now.graph.now self.old }
        ensures sized { OnOk result (AreSized maps.now.graph.now self.new) }
        ensures onwards { OnOk result ((onwards : PlainRows) × (self.new.onwards ≡ Some onwards)) }
        ensures left { OnOk result (self.new.left ≡ self.old.left) }
        ensures at { OnOk result ((claimed : Claimed) (reach : ℕ → ℕ → Bool) (k : ℕ) → AreAt maps.now.graph.now claimed reach k self.old → AreAt maps.now.graph.now claimed reach k self.new) }
        ensures first { OnOk result ((claimed : Claimed) → AreFirst maps.now.graph.now claimed self.old → AreFirst maps.now.graph.now claimed self.new) }
    {
        if self.onwards.is_some() {
            return Ok(());
        }
        let onwards = rows_along(alloc, maps.graph(), Way::Forward)?;
        self.onwards = Some(onwards);
        Ok(())
    }

    /// The next round. The result says whether it took something away.
    pub fn advance(&mut self, maps: &Maps) -> bool
        requires { AreSized maps.now.graph.now self.old }
        ensures sized { AreSized maps.now.graph.now self.new }
        ensures onwards { self.new.onwards ≡ self.old.onwards }
        ensures next { (claimed : Claimed) (reach : ℕ → ℕ → Bool) (k : ℕ) → Knows maps.now.graph.now reach k self.old.onwards → AreAt maps.now.graph.now claimed reach k self.old
            → AreAt maps.now.graph.now claimed reach (suc k) self.new }
        ensures settled { result ≡ false → (claimed : Claimed) (reach : ℕ → ℕ → Bool) (k : ℕ) → Knows maps.now.graph.now reach k self.old.onwards → AreAt maps.now.graph.now claimed reach k self.old
            → TakesNothingMore (view_of maps.now.graph.now claimed) reach k × AreLeft (view_of maps.now.graph.now claimed) reach k self.new.left }
        ensures quiet { (n b : ℕ) → n < length maps.now.graph.now.nodes → b < length maps.now.graph.now.nodes → is_touched self.new.touched.items n ≡ false
            → has_at self.new.left n b ≡ has_at self.old.left n b }
        ensures even { (n b : ℕ) → n < length maps.now.graph.now.nodes → b < length maps.now.graph.now.nodes → has_at self.new.next n b ≡ has_at self.new.left n b }
        ensures fewer { bits_set (length maps.now.graph.now.nodes) self.new.left + (if result then 1 else 0) ≤ bits_set (length maps.now.graph.now.nodes) self.old.left }
    {
        take_each(
            &mut self.next,
            maps,
            &self.onwards,
            &self.left,
            &self.touched,
            &mut self.mask,
            &mut self.looped,
        );
        put_each(&mut self.left, &self.next, &mut self.touched)
    }

    /// Goes back to a round that left these rows, of which it touched these.
    pub(crate) fn go_back(&mut self, left: Rows, touched: Vec<bool>)
        requires square { IsSquare (length touched.items) self.old.next }
        requires left { IsSameSize left self.old.next }
        ensures left { self.new.left ≡ left }
        ensures touched { self.new.touched ≡ touched }
        ensures even { (n b : ℕ) → n < length touched.items → has_at self.new.next n b ≡ has_at left n b }
        ensures sized { (g : PlainGraph) → AreSized g self.old → length touched.items ≡ length g.nodes → AreSized g self.new }
    {
        put_rows(&mut self.next, &left, touched.len() as u32);
        self.left = left;
        self.touched = touched;
    }

    /// What the rounds left.
    pub(crate) fn into_left(self) -> Rows
        ensures { result ≡ self.left }
    {
        self.left
    }

    /// Whether some node of a touched row and another at its location are each not in the row of the other.
    pub fn is_open(&self, maps: &Maps) -> bool
        requires { AreSized maps.now.graph.now self.now }
        ensures open { IsTrue result → (m n : ℕ) × IsOpen maps.now.graph.now self.now.left m n }
        ensures bound { result ≡ false → (n m : ℕ) → n < length maps.now.graph.now.nodes → m < length maps.now.graph.now.nodes → IsTrue (is_touched self.now.touched.items n)
            → place_of maps.now.graph.now m ≡ place_of maps.now.graph.now n → IsTrue (has_either self.now.left m n) }
    {
        for n in 0..self.touched.len() as u32 {
            if self.touched[n as usize] && has_open(maps, &self.left, &self.touched, n) {
                return true;
            }
        }
        false
    }
}

// Whether n and some node at its location are each not in the row of the other. Of a touched node behind n that isn't asked:
// n is asked of it.
fn has_open(maps: &Maps, left: &Rows, touched: &[bool], n: u32) -> bool
    requires left { AreNodeRows maps.now.graph.now left.now }
    requires touched { length touched.now ≡ length maps.now.graph.now.nodes }
    requires n { n < length maps.now.graph.now.nodes }
    ensures open { IsTrue result → (m : ℕ) × IsOpen maps.now.graph.now left.now m n }
    ensures bound { result ≡ false → (m : ℕ) → m < length maps.now.graph.now.nodes → place_of maps.now.graph.now m ≡ place_of maps.now.graph.now n
        → asks_later_in touched.now m n ≡ false → IsTrue (has_either left.now m n) }
{
    let row = left.row(n);
    for m in maps.peers(n) {
        if !asks_later(touched, *m, n) && !is_set(row, *m) && !left.get(*m, n) {
            return true;
        }
    }
    false
}

// Whether m stands behind n in a touched row.
fn asks_later(touched: &[bool], m: u32, n: u32) -> bool
    requires { m < length touched.now }
    ensures { result ≡ asks_later_in touched.now m n }
{
    n < m && touched[m as usize]
}

/// For each node the nodes that are left above it, after the round in which nothing more goes.
pub fn all_rounds(alloc: Global, maps: &Maps, claimed: &LocSet) -> Result<Rows, NoMemory>
    ensures rows { IfOk result (AreNodeRows maps.now.graph.now) }
    ensures rounds { IfOk result (λ left. (reach : ℕ → ℕ → Bool) → IsReach (view_of maps.now.graph.now claimed.now) reach
        → (rounds : ℕ) × TakesNothingMore (view_of maps.now.graph.now claimed.now) reach rounds × AreLeft (view_of maps.now.graph.now claimed.now) reach rounds left) }
{
    let mut rounds = Rounds::new(alloc, maps, claimed)?;
    rounds.look_onwards(alloc, maps)?;
    let mut changed = true;
    'rounds: while changed {
        changed = rounds.advance(maps);
    }
    Ok(rounds.into_left())
}
