//! Where steps led to, by state and class of the location.
ghost use Rattle.std.specs.Prelude.{◌≡◌, IfOk, IfSome};
ghost use Rattle.path_terms.specs.Values.{values};
ghost use Rattle.path_automata.specs.Classes.{AreBelow, AreSorted, SameClass};

use crate::classes::classes_of;
use crate::derived::class_of;
use net_base::Loc;
use path_terms::Terms;
use std::alloc::{AllocError, Global};

/// Stands where no next state is known.
pub const UNKNOWN: u32 = u32::MAX;

/// For each state and class of locations the state that its locations lead to, where it is known.
#[derive(Drop)]
pub struct Memo {
    /// The class of each location of the network.
    classes: Vec<usize>,
    /// How many classes there are.
    count: usize,
    /// The next states, a row a state and a place in it for each class.
    next: Vec<u32>,
    ghost below: { AreBelow classes.items count },
}

impl Memo {
    ghost use Rattle.std.specs.Prelude.{ℕ, ◌+◌, ◌*◌, ◌⊎◌};
    ghost use Rattle.path_automata.specs.Memo.{IsPlace, Notes};

    /// The memo of the automaton whose first state has these terms alone, in a network of so many locations: no next
    /// state is known.
    pub fn new(alloc: Global, terms: &Terms, locations: u16) -> Result<Memo, AllocError>
        ensures sorted { IfOk result (λ m. AreSorted m.classes.items (values terms.now)) }
        ensures none { IfOk result (λ m. (state at next : ℕ) → ¬ (Notes m state at next)) }
    {
        let (classes, count) = classes_of(alloc, terms, locations)?;
        Ok(Memo {
            classes,
            count,
            next: Vec::new(alloc),
        })
    }

    /// The class of each location.
    pub fn classes(&self) -> &[usize]
        ensures { result.now ≡ self.now.classes.items }
    {
        &self.classes
    }

    /// The state that the location leads to, if it is known.
    pub fn get(&self, state: u64, at: Loc) -> Option<u64>
        ensures { IfSome result (λ next. Notes self.now state at next) }
    {
        let place = self.place(state, at)?;
        let next = *self.next.get(place)?;
        if next < UNKNOWN {
            Some(next as u64)
        } else {
            None
        }
    }

    /// Makes room for the next states of a state. What is known stays.
    pub fn make_room(&mut self, state: u64) -> Result<(), AllocError>
        ensures classes { self.new.classes ≡ self.old.classes }
        ensures kept { (s at next : ℕ) → Notes self.new s at next → Notes self.old s at next }
    {
        let room = self.room(state).ok_or(AllocError)?;
        if room <= self.next.len() {
            return Ok(());
        }
        self.next.resize(room, UNKNOWN)
    }

    // How many places the rows up to that of the state take, if they can be counted.
    fn room(&self, state: u64) -> Option<usize>
        ensures { IfSome result (λ room. room ≡ (state + 1) * self.now.count) }
    {
        let rows = (state as usize).checked_add(1)?;
        rows.checked_mul(self.count)
    }

    /// Notes the next state, if there is room for it.
    pub fn note(&mut self, state: u64, at: Loc, next: usize)
        ensures classes { self.new.classes ≡ self.old.classes }
        ensures noted { (s x n : ℕ) → Notes self.new s x n → Notes self.old s x n ⊎ (SameClass self.old.classes.items x at × (s ≡ state) × (n ≡ next)) }
    {
        let Some(place) = self.place(state, at) else {
            return;
        };
        if place < self.next.len() && next < UNKNOWN as usize {
            self.next[place] = next as u32;
        }
    }

    // Where the next state of the state and the location's class stands.
    fn place(&self, state: u64, at: Loc) -> Option<usize>
        ensures { IfSome result (λ place. IsPlace self.now state at place) }
    {
        let class = class_of(&self.classes, at)?;
        let row = (state as usize).checked_mul(self.count)?;
        row.checked_add(class)
    }
}
