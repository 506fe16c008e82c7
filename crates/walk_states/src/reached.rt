//! The standings that walks reach, numbered in breadth-first order, and the steps between them.
ghost use Rattle.std.specs.Prelude.{◌≡◌, ◌≤◌, ◌<◌, ◌+◌, ◌++◌, ◌&&◌, not, [], ℕ, All, List as Items, filter, length, map, take, slice_get, Some, IfOk, OnOk, IsErrOf, IsTrue, option_map};
ghost use Rattle.std.specs.List.{AllByRecursion};
ghost use Rattle.net_base.specs.declared.limits.TheConstants.{LOCATIONS};
ghost use Rattle.path_exprs.specs.declared.limits.TheConstants.{NODES};
ghost use Rattle.net_base.specs.Network.{is_peer};
ghost use Rattle.net_base.specs.Sets.{holds};
ghost use Rattle.path_automata.specs.States.{AreApart, Extends, states_of};
ghost use Rattle.path_exprs.specs.Expression.{Expression};
ghost use Rattle.walk_states.specs.Built.{node_of, place_in, rank_of_standing};
ghost use Rattle.net_base.specs.Locations.{in_order};
ghost use Rattle.path_exprs.specs.Standings.{moved};

use crate::fault::StandingsFault;
use crate::found::Found;
use crate::neighbours::all_ways;
use graph_base::Node;
use input_output::NoMemory;
use net_base::{List, Loc, Net};
use path_automata::{Automata, State};
use path_exprs::limits::NODES;
use policy_base::{Case, FromSet};
use std::alloc::Global;

// The most standings that walks of a case may reach.
const MOST_NODES: usize = NODES as usize;

// Whether a node at a location hears: at a peer that is no origin.
fn is_listener(net: &Net, case: &Case, at: Loc) -> bool
    ensures { result ≡ (is_peer net.now at && not (holds case.now.origins at)) }
{
    net.is_peer(at) && !case.origins.holds(at)
}

/// Standings, each a location with the state after a walk that led there, and the steps between them.
#[derive(Drop)]
pub(crate) struct Reached {
    automata: Automata,
    found: Found,
    steps: Vec<(u32, u32)>,
    ghost known: { All (λ k. k.1 < length (states_of automata)) found.keys.items },
    ghost apart: { AreApart (states_of automata) },
}

impl Reached {
    ghost use Rattle.path_exprs.specs.Standings.{AreReached, Standing, plan_of};
    ghost use Rattle.walk_states.specs.Growth.{each_live, gathered, left_in, live, next_in, standing_in, standings_of, steps_to, with_standing, AreAsked, IsOver};

    /// No standing yet in this network, of walks whose states are those of the automaton.
    pub(crate) fn new(alloc: Global, net: &Net, automata: Automata) -> Reached
        ensures none { standings_of result ≡ [] }
        ensures steps { result.steps.items ≡ [] }
        ensures automata { states_of result.automata ≡ states_of automata }
        ensures over { IsOver net.now result }
    {
        let locations = net.routers().len() + net.peers().len();
        Reached {
            automata,
            found: Found::new(alloc, locations as u16),
            steps: Vec::new(alloc),
        }
    }

    // Makes room for what one state at each location takes.
    fn make_room(&mut self, net: &Net) -> Result<(), NoMemory>
        ensures standings { standings_of self.new ≡ standings_of self.old }
        ensures steps { self.new.steps.items ≡ self.old.steps.items }
        ensures states { states_of self.new.automata ≡ states_of self.old.automata }
        ensures locations { self.new.found.locations ≡ self.old.found.locations }
    {
        self.found.reserve()?;
        self.steps.reserve(2 * net.links().len())?;
        Ok(())
    }

    /// The number of standings.
    pub(crate) fn len(&self) -> usize
        ensures { result ≡ length (standings_of self.now) }
    {
        self.found.len()
    }

    // Adds the standing of an origin, after it was read itself.
    fn add_start(&mut self, at: Loc) -> Result<(), NoMemory>
        requires begun { 0 < length (states_of self.old.automata) }
        requires within { at < self.old.found.locations }
        requires few { length (standings_of self.old) ≤ NODES }
        ensures ok { OnOk result (standings_of self.new ≡ with_standing (standings_of self.old) (moved (left_in (states_of self.old.automata) 0) at)) }
        ensures kept { Extends (states_of self.old.automata) (states_of self.new.automata) }
        ensures steps { self.new.steps ≡ self.old.steps }
        ensures locations { self.new.found.locations ≡ self.old.found.locations }
    {
        let state = self.automata.step(self.automata.start(), at)?;
        self.found.insert(at, state)?;
        Ok(())
    }

    /// Adds the standing of each origin, in order of location.
    pub(crate) fn add_starts(&mut self, net: &Net, case: &Case) -> Result<(), NoMemory>
        requires begun { 0 < length (states_of self.old.automata) }
        requires none { standings_of self.old ≡ [] }
        requires over { IsOver net.now self.old }
        ensures ok { OnOk result (standings_of self.new ≡ map (moved (left_in (states_of self.old.automata) 0)) (filter (holds case.now.origins) (in_order net.now))) }
        ensures few { OnOk result (length (standings_of self.new) ≤ LOCATIONS) }
        ensures steps { OnOk result (self.new.steps.items ≡ self.old.steps.items) }
        ensures kept { OnOk result (Extends (states_of self.old.automata) (states_of self.new.automata)) }
        ensures over { OnOk result (IsOver net.now self.new) }
    {
        self.make_room(net)?;
        for number in 0..net.routers().len() + net.peers().len() {
            let at = Loc::new(number as u16);
            if case.origins.holds(at) {
                self.add_start(at)?;
            }
        }
        Ok(())
    }

    // Whether a standing is held, or can be put behind the others.
    fn has_room(&self, at: Loc, state: State) -> bool
        requires known { state < length (states_of self.now.automata) }
        requires within { at < self.now.found.locations }
        requires few { length (standings_of self.now) ≤ NODES }
        ensures room { IsTrue result → length (with_standing (standings_of self.now) (standing_in (states_of self.now.automata) (at, state))) ≤ NODES }
        ensures full { IsTrue (not result) → NODES < length (with_standing (standings_of self.now) (standing_in (states_of self.now.automata) (at, state))) }
    {
        self.found.len() < MOST_NODES || self.found.number(at, state).is_some()
    }

    // The number of a standing, which is put behind the others where it isn't among them.
    fn number_of(&mut self, at: Loc, state: State) -> Result<u32, StandingsFault>
        requires known { state < length (states_of self.old.automata) }
        requires within { at < self.old.found.locations }
        requires few { length (standings_of self.old) ≤ NODES }
        ensures number { IfOk result (λ n. n ≡ place_in (standings_of self.new) (standing_in (states_of self.old.automata) (at, state))) }
        ensures ok { OnOk result (standings_of self.new ≡ with_standing (standings_of self.old) (standing_in (states_of self.old.automata) (at, state))) }
        ensures few { length (standings_of self.new) ≤ NODES }
        ensures many { IsErrOf result StandingsFault.TooMany → NODES < length (with_standing (standings_of self.old) (standing_in (states_of self.old.automata) (at, state))) }
        ensures steps { self.new.steps ≡ self.old.steps }
        ensures states { states_of self.new.automata ≡ states_of self.old.automata }
        ensures locations { self.new.found.locations ≡ self.old.found.locations }
    {
        if !self.has_room(at, state) {
            return Err(StandingsFault::TooMany);
        }
        let number = self.found.insert(at, state)?;
        Ok(number)
    }

    // Adds the step of a standing to a location, where that can still be permitted.
    fn add_step(&mut self, number: u32, from: State, at: Loc) -> Result<(), StandingsFault>
        requires known { from < length (states_of self.old.automata) }
        requires within { at < self.old.found.locations }
        requires few { length (standings_of self.old) ≤ NODES }
        ensures ok { OnOk result (standings_of self.new ≡ gathered (standings_of self.old) (live (left_in (states_of self.old.automata) from) at)) }
        ensures steps { OnOk result (self.new.steps.items ≡ self.old.steps.items ++ steps_to (standings_of self.new) number (live (left_in (states_of self.old.automata) from) at)) }
        ensures few { length (standings_of self.new) ≤ NODES }
        ensures many { IsErrOf result StandingsFault.TooMany → NODES < length (gathered (standings_of self.old) (live (left_in (states_of self.old.automata) from) at)) }
        ensures kept { Extends (states_of self.old.automata) (states_of self.new.automata) }
        ensures locations { self.new.found.locations ≡ self.old.found.locations }
    {
        let state = self.automata.step(from, at)?;
        if self.automata.is_dead(state) {
            return Ok(());
        }
        let target = self.number_of(at, state)?;
        self.steps.push((number, target))?;
        Ok(())
    }

    // Adds the steps of a standing.
    fn add_steps(&mut self, number: u32, from: State, ways: &[u16]) -> Result<(), StandingsFault>
        requires known { from < length (states_of self.old.automata) }
        requires within { AllByRecursion (λ at. at < self.old.found.locations) ways.now }
        requires few { length (standings_of self.old) ≤ NODES }
        ensures ok { OnOk result (standings_of self.new ≡ gathered (standings_of self.old) (each_live (left_in (states_of self.old.automata) from) ways.now)) }
        ensures steps { OnOk result (self.new.steps.items ≡ self.old.steps.items ++ steps_to (standings_of self.new) number (each_live (left_in (states_of self.old.automata) from) ways.now)) }
        ensures few { length (standings_of self.new) ≤ NODES }
        ensures many { IsErrOf result StandingsFault.TooMany
            → (n : ℕ) × (NODES < length (gathered (standings_of self.old) (each_live (left_in (states_of self.old.automata) from) (take n ways.now)))) }
        ensures kept { OnOk result (Extends (states_of self.old.automata) (states_of self.new.automata)) }
        ensures locations { OnOk result (self.new.found.locations ≡ self.old.found.locations) }
    {
        for next in ways {
            self.add_step(number, from, Loc::new(*next))?;
        }
        Ok(())
    }

    /// Adds all that walks reach from here.
    pub(crate) fn walk(
        &mut self,
        alloc: Global,
        net: &Net,
        case: &Case,
    ) -> Result<(), StandingsFault>
        requires over { IsOver net.now self.old }
        requires few { length (standings_of self.old) ≤ NODES }
        requires no_steps { self.old.steps.items ≡ [] }
        ensures ok { OnOk result (AreAsked (standings_of self.old) (next_in net.now case.now) (standings_of self.new) self.new.steps.items (length (standings_of self.new))) }
        ensures few { length (standings_of self.new) ≤ NODES }
        ensures many { IsErrOf result StandingsFault.TooMany → (xs : Items Standing) × AreReached (standings_of self.old) (next_in net.now case.now) xs × (NODES < length xs) }
        ensures kept { OnOk result (Extends (states_of self.old.automata) (states_of self.new.automata)) }
    {
        let ways = all_ways(alloc, net, case)?;
        let mut number = 0;
        while number < self.found.len() {
            let (at, from) = self.found.standing(number);
            self.add_steps(number as u32, from, ways[at.number() as usize].as_slice())?;
            number += 1;
        }
        Ok(())
    }

    /// The steps, and the automaton with the states that were found.
    pub(crate) fn into_parts(self) -> (List<(u32, u32)>, Automata)
        ensures steps { result.0 ≡ self.steps.items }
        ensures automata { states_of result.1 ≡ states_of self.automata }
    {
        (List::from_vec(self.steps), self.automata)
    }

    // The rank of the walks that came to a standing, where they have one.
    fn rank(&self, case: &Case, from: &FromSet, at: Loc, state: State) -> Option<u32>
        requires known { state < length (states_of self.now.automata) }
        ensures { (es : Items Expression) → result ≡ rank_of_standing (plan_of es from.now case.now) (standing_in (states_of self.now.automata) (at, state)) }
    {
        if from.holds(at) && !case.origins.holds(at) {
            self.automata.rank(state)
        } else {
            None
        }
    }

    // The node of a standing.
    fn node(&self, net: &Net, case: &Case, from: &FromSet, number: usize) -> Node
        requires within { number < length self.now.found.keys.items }
        ensures { (es : Items Expression) → option_map (node_of net.now (plan_of es from.now case.now)) (slice_get (standings_of self.now) number) ≡ Some result }
    {
        let (at, state) = self.found.standing(number);
        Node {
            loc: at,
            listener: is_listener(net, case, at),
            rank: self.rank(case, from, at, state),
        }
    }

    /// The node of each standing.
    pub(crate) fn nodes(
        &self,
        alloc: Global,
        net: &Net,
        case: &Case,
        from: &FromSet,
    ) -> Result<List<Node>, NoMemory>
        ensures { (es : Items Expression) → IfOk result (λ nodes. nodes ≡ map (node_of net.now (plan_of es from.now case.now)) (standings_of self.now)) }
    {
        let mut nodes = Vec::with_capacity(alloc, self.found.len())?;
        for number in 0..self.found.len() {
            nodes.push(self.node(net, case, from, number))?;
        }
        Ok(List::from_vec(nodes))
    }
}
