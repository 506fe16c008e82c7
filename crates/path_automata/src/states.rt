//! States, each with its number.
ghost use Rattle.std.specs.Prelude.{◌≡◌, ◌≤◌, ◌<◌, ◌∷◌, [], ℕ, Some, All, IfOk, OnErr, OnOk, length, map, slice_get, true, vec_len};
ghost use Rattle.std.specs.List.{list_all};
ghost use Rattle.std.proofs.Props.{props};
ghost use Rattle.policy_base.specs.declared.limits.TheConstants.{ALTERNATIVES};
ghost use Rattle.net_base.specs.NetSets.{locations as all_locations};
ghost use Rattle.path_exprs.specs.Derivative.{derivative as derivative_of};
ghost use Rattle.path_exprs.specs.Expression.{Expression};
ghost use Rattle.path_exprs.specs.Normal.{is_never as is_never_test};
ghost use Rattle.path_exprs.specs.Runs.{first_with, start_of};
ghost use Rattle.path_terms.specs.Terms.{are_known};
ghost use Rattle.path_terms.specs.Values.{values};
ghost use Rattle.path_automata.specs.Derived.{AreDerivatives};
ghost use Rattle.path_automata.specs.Found.{facts_of as facts_spec, states_in, AreFacts};
ghost use Rattle.path_automata.specs.Memo.{AreAlike, IsRight, NoTwice};

use crate::derive::derivatives;
use crate::facts::{Facts, facts_of};
use crate::memo::Memo;
use crate::starts::starts_of;
use indexmap::{IndexMap, IndexSet};
use input_output::NoMemory;
use net_base::{Loc, Net};
use path_exprs::RankedExpr;
use path_terms::Terms;
use std::alloc::Global;
use std::marker::Model;

/// A state of an automaton by its number.
#[derive(Clone, Copy, Debug, PartialEq, Eq, PartialOrd, Ord, Hash)]
pub struct State(u64);

impl Model for State {
    ghost use Rattle.std.specs.Prelude.{ℕ};

    ghost Value = { ℕ };

    ghost view = { λ s. s.0 };

    ghost inverse = { λ n. record { 0 = n } };
}

impl State {
    /// The number of the state.
    pub fn number(self) -> u64
        ensures { result ≡ self }
    {
        self.0
    }
}

/// What is left of ranked expressions after lists of locations that are read from the origin end. Each
/// state that was found has a number, and equal states have equal numbers.
#[derive(Drop)]
pub struct Automata {
    alloc: Global,
    /// The expressions of all states, with their parts shared.
    terms: Terms,
    /// Derivatives of terms, as far as they were made.
    derived: IndexMap<(u32, usize), u32>,
    /// The terms of each state, one an alternative.
    found: IndexSet<Vec<u32>>,
    /// What is asked of each state.
    facts: Vec<Facts>,
    memo: Memo,
    ghost few: { All (λ v. vec_len v ≤ ALTERNATIVES) found.keys },
    ghost begun: { 0 < length found.keys },
    ghost known: { All (λ v. are_known (length (values terms)) v.items ≡ true) found.keys },
    ghost kept: { AreDerivatives memo.classes.items (values terms) derived } by { Prim.hlevel props },
    ghost told: { AreFacts facts.items (states_in (values terms) found.keys) },
    ghost apart: { NoTwice (states_in (values terms) found.keys) },
    ghost alike: { AreAlike memo (states_in (values terms) found.keys) },
    ghost right: { IsRight memo (states_in (values terms) found.keys) },
}

impl Automata {
    ghost use Rattle.std.specs.Prelude.{List};
    ghost use Rattle.path_automata.specs.States.{AreApart, Extends, IsState, states_of};

    /// The automaton of the expressions: its first state has the normal form of each reversed expression.
    pub fn new(alloc: Global, ranked: &RankedExpr, net: &Net) -> Result<Automata, NoMemory>
        ensures { IfOk result (λ a. states_of a ≡ start_of (all_locations net.now) ranked.now ∷ []) }
    {
        let mut terms = Terms::new(alloc);
        let full = net.locations();
        let first = starts_of(&mut terms, alloc, &full, ranked)?;
        let locations = net.routers().len() + net.peers().len();
        let memo = Memo::new(alloc, &terms, locations as u16)?;
        let facts = vec![in alloc; facts_of(&terms, &first)]?;
        let mut found = IndexSet::new(alloc);
        found.insert(first)?;
        Ok(Automata {
            alloc,
            terms,
            derived: IndexMap::new(alloc),
            found,
            facts,
            memo,
        })
    }

    /// The state before any location.
    pub fn start(&self) -> State
        ensures first { result ≡ 0 }
        ensures known { result < length (states_of self.now) }
    {
        let _ = &self.found;
        State(0)
    }

    /// The state that a location leads to: the derivative of each alternative, in normal form. Earlier
    /// states keep their numbers, also where memory is refused.
    pub fn step(&mut self, state: State, at: Loc) -> Result<State, NoMemory>
        requires known { state < length (states_of self.old) }
        ensures ok { IfOk result (λ next. (s : List Expression) → IsState self.old state s → IsState self.new next (map (derivative_of at) s)) }
        ensures known { IfOk result (λ next. next < length (states_of self.new)) }
        ensures apart { OnOk result (AreApart (states_of self.new)) }
        ensures extends { Extends (states_of self.old) (states_of self.new) }
        ensures err { OnErr result (states_of self.new ≡ states_of self.old) }
    {
        if let Some(next) = self.memo.get(state.0, at) {
            return Ok(State(next));
        }
        // Room first: where memory is refused after it, no state was added.
        self.memo.make_room(state.0)?;
        let alloc = self.alloc;
        let Some(alternatives) = self.found.get_index(state.0 as usize) else {
            unreachable!()
        };
        let bound = self.terms.len();
        let next = derivatives(
            &mut self.terms,
            self.memo.classes(),
            &mut self.derived,
            alloc,
            bound,
            alternatives,
            at,
        )?;
        let facts = facts_of(&self.terms, &next);
        put_facts(&mut self.facts, self.found.len(), facts)?;
        let (number, _) = self.found.insert_full(next)?;
        self.memo.note(state.0, at, number);
        Ok(State(number as u64))
    }

    // What is asked of a state.
    fn facts_at(&self, state: State) -> Facts
        requires known { state < length (states_of self.now) }
        ensures { (s : List Expression) → IsState self.now state s → result ≡ facts_spec s }
    {
        self.facts[state.0 as usize]
    }

    /// The rank of a state: the place, from 1, of the first alternative that holds the empty list.
    pub fn rank(&self, state: State) -> Option<u32>
        requires known { state < length (states_of self.now) }
        ensures { (s : List Expression) → IsState self.now state s → result ≡ first_with [] s }
    {
        self.facts_at(state).rank
    }

    /// Whether every alternative is Never.
    pub fn is_dead(&self, state: State) -> bool
        requires known { state < length (states_of self.now) }
        ensures { (s : List Expression) → IsState self.now state s → result ≡ list_all is_never_test s }
    {
        self.facts_at(state).dead
    }
}

// Puts what is asked of a state at its number, which is at most one past the last.
fn put_facts(all: &mut Vec<Facts>, number: usize, facts: Facts) -> Result<(), NoMemory>
    requires within { number ≤ vec_len all.old }
    ensures before { (i : ℕ) → i < number → slice_get all.new.items i ≡ slice_get all.old.items i }
    ensures here { OnOk result (slice_get all.new.items number ≡ Some facts) }
{
    if number < all.len() {
        all[number] = facts;
    } else {
        all.push(facts)?;
    }
    Ok(())
}
