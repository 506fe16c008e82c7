//! The first round, and the rounds behind it.
ghost use Rattle.std.specs.Prelude.{◌≡◌, ℕ, Bool, Some, false, IfOk, IsTrue, OnOk};
ghost use Rattle.bit_rows.specs.Tables.{PlainRows};
ghost use Rattle.relation_law.specs.Relations.{IsClosed, IsGreatest, IsTotal};
ghost use Rattle.relation_law.specs.Views.{view_of};
ghost use Rattle.state_simulation.specs.Found.{IsFirstRound};
ghost use Rattle.state_simulation.specs.Stages.{AreAt, AreBound, AreFirst, AreSized, above_in};

use crate::copies::copied;
use crate::maps::Maps;
use crate::rounds::Rounds;
use bit_rows::Rows;
use graph_base::Graph;
use input_output::NoMemory;
use net_base::LocSet;
use std::alloc::Global;

/// The nodes of a graph as they are looked up, and its rounds behind the first one.
#[derive(Drop)]
pub struct FirstRound<'a> {
    /// The nodes of the graph, as they are looked up.
    pub maps: Maps<'a>,
    /// What the first round left, and what the second one knows.
    pub rounds: Rounds,
    changed: bool,
}

impl<'a> FirstRound<'a> {
    /// The first round of a graph.
    pub fn new(
        alloc: Global,
        graph: &'a Graph,
        claimed: &LocSet,
    ) -> Result<FirstRound<'a>, NoMemory>
        ensures first { IfOk result (IsFirstRound graph.now claimed.now) }
        ensures settled { IfOk result (λ first. first.changed ≡ false → IsGreatest (view_of graph.now claimed.now) (above_in (view_of graph.now claimed.now) first.rounds.left)) }
    {
        let maps = Maps::new(alloc, graph)?;
        let mut rounds = Rounds::new(alloc, &maps, claimed)?;
        let changed = rounds.advance(&maps);
        Ok(FirstRound {
            maps,
            rounds,
            changed,
        })
    }

    /// Goes on to the round that takes nothing away, and says whether it leaves a direction of each two nodes at one
    /// location. It stops at the first round that leaves two of them without one, and goes back to the first round. It finds
    /// what can be reached only where the first round took something away and left each two a direction.
    pub(crate) fn find_total(&mut self, alloc: Global, claimed: &LocSet) -> Result<bool, NoMemory>
        requires first { IsFirstRound self.old.maps.graph.now claimed.now self.old }
        requires settled { self.old.changed ≡ false
            → IsGreatest (view_of self.old.maps.graph.now claimed.now) (above_in (view_of self.old.maps.graph.now claimed.now) self.old.rounds.left) }
        ensures maps { OnOk result (self.new.maps ≡ self.old.maps) }
        ensures sized { OnOk result (AreSized self.old.maps.graph.now self.new.rounds) }
        ensures greatest { IfOk result
            (λ total. IsTrue total → IsGreatest (view_of self.old.maps.graph.now claimed.now) (above_in (view_of self.old.maps.graph.now claimed.now) self.new.rounds.left)) }
        ensures bound { IfOk result (λ total. IsTrue total → AreBound self.old.maps.graph.now self.new.rounds.left) }
        ensures first { IfOk result (λ total. total ≡ false → AreFirst self.old.maps.graph.now claimed.now self.new.rounds) }
        ensures partial { IfOk result (λ total. total ≡ false
            → (s : ℕ → ℕ → Bool) → IsClosed (view_of self.old.maps.graph.now claimed.now) s → ¬ IsTotal (view_of self.old.maps.graph.now claimed.now) s) }
    {
        if self.rounds.is_open(&self.maps) {
            return Ok(false);
        }
        if !self.changed {
            return Ok(true);
        }
        find_rest(alloc, &self.maps, claimed, &mut self.rounds)
    }

    /// What the rounds left.
    pub(crate) fn into_left(self) -> Rows
        ensures { result ≡ self.entry.rounds.left }
    {
        self.rounds.into_left()
    }
}

// The same behind a first round that took something away and left each two nodes at one location a direction.
fn find_rest(
    alloc: Global,
    maps: &Maps,
    claimed: &LocSet,
    rounds: &mut Rounds,
) -> Result<bool, NoMemory>
    requires first { AreFirst maps.now.graph.now claimed.now rounds.old }
    requires bound { AreBound maps.now.graph.now rounds.old.left }
    ensures sized { OnOk result (AreSized maps.now.graph.now rounds.new) }
    ensures greatest { IfOk result
        (λ total. IsTrue total → IsGreatest (view_of maps.now.graph.now claimed.now) (above_in (view_of maps.now.graph.now claimed.now) rounds.new.left)) }
    ensures bound { IfOk result (λ total. IsTrue total → AreBound maps.now.graph.now rounds.new.left) }
    ensures first { IfOk result (λ total. total ≡ false → AreFirst maps.now.graph.now claimed.now rounds.new) }
    ensures partial { IfOk result (λ total. total ≡ false
        → (s : ℕ → ℕ → Bool) → IsClosed (view_of maps.now.graph.now claimed.now) s → ¬ IsTotal (view_of maps.now.graph.now claimed.now) s) }
{
    rounds.look_onwards(alloc, maps)?;
    let size = rounds.touched.len() as u32;
    let left = copied(alloc, &rounds.left, size)?;
    let touched = rounds.touched.to_vec(alloc)?;
    if stay_total(maps, claimed, rounds) {
        return Ok(true);
    }
    rounds.go_back(left, touched);
    Ok(false)
}

// Goes on to the round that takes nothing away, or to the first one that leaves two nodes at one location without a direction,
// and says whether none did.
fn stay_total(maps: &Maps, claimed: &LocSet, rounds: &mut Rounds) -> bool
    requires sized { AreSized maps.now.graph.now rounds.old }
    requires onwards { (onwards : PlainRows) × (rounds.old.onwards ≡ Some onwards) }
    requires bound { AreBound maps.now.graph.now rounds.old.left }
    requires first { (reach : ℕ → ℕ → Bool) → AreAt maps.now.graph.now claimed.now reach 1 rounds.old }
    ensures sized { AreSized maps.now.graph.now rounds.new }
    ensures greatest { IsTrue result → IsGreatest (view_of maps.now.graph.now claimed.now) (above_in (view_of maps.now.graph.now claimed.now) rounds.new.left) }
    ensures bound { IsTrue result → AreBound maps.now.graph.now rounds.new.left }
    ensures partial { result ≡ false → (s : ℕ → ℕ → Bool) → IsClosed (view_of maps.now.graph.now claimed.now) s → ¬ IsTotal (view_of maps.now.graph.now claimed.now) s }
{
    let mut changed = true;
    'rounds: while changed {
        changed = rounds.advance(maps);
        if rounds.is_open(maps) {
            return false;
        }
    }
    true
}
