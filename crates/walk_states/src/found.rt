//! The standings that were found, each with its number.
ghost use Rattle.std.specs.Prelude.{◌≡◌, ◌<◌, ◌≤◌, [], ℕ, All, IfOk, OnErr, OnOk, Some, length, slice_get, vec_len};
ghost use Rattle.path_exprs.specs.declared.limits.TheConstants.{NODES};
ghost use Rattle.walk_states.specs.Table.{entry, number_in, with_key, AreFound, AreInside, AreRight, AreRowsApart};

use input_output::NoMemory;
use net_base::Loc;
use path_automata::State;
use std::alloc::{AllocError, Global};

/// Standings, each a location with a state, in the order of their numbers. Each step of a walk asks for the number of a standing,
/// so they are in a table: a row for each state that was found, with a place for each location.
#[derive(Drop)]
pub(crate) struct Found {
    /// How many locations there are.
    locations: u16,
    keys: Vec<(Loc, State)>,
    /// For each state where its row begins, if it has one.
    rows: Vec<Option<usize>>,
    /// The rows, one behind the other.
    numbers: Vec<Option<u16>>,
    ghost within: { All (λ k. k.0 < locations) keys.items },
    ghost inside: { AreInside locations rows.items numbers.items },
    ghost apart: { AreRowsApart locations rows.items },
    ghost right: { AreRight locations rows.items numbers.items keys.items },
    ghost found: { AreFound rows.items numbers.items keys.items },
}

// Makes room for the row of a state.
fn make_room(rows: &mut Vec<Option<usize>>, state: usize) -> Result<(), AllocError>
    ensures rows { (s : ℕ) → entry rows.new.items s ≡ entry rows.old.items s }
    ensures room { OnOk result (state < vec_len rows.new) }
{
    if state < rows.len() {
        return Ok(());
    }
    let room = state.checked_add(1).ok_or(AllocError)?;
    rows.resize(room, None)
}

// Where the row of a state begins, if it has one.
fn row_of(rows: &[Option<usize>], state: State) -> Option<usize>
    ensures { result ≡ entry rows.now state }
{
    *rows.get(state.number() as usize)?
}

impl Found {
    /// No standing yet, in a network of so many locations.
    pub(crate) fn new(alloc: Global, locations: u16) -> Found
        ensures none { result.keys.items ≡ [] }
        ensures locations { result.locations ≡ locations }
    {
        Found {
            locations,
            keys: Vec::new(alloc),
            rows: Vec::new(alloc),
            numbers: Vec::new(alloc),
        }
    }

    /// Makes room for one state at each location.
    pub(crate) fn reserve(&mut self) -> Result<(), AllocError>
        ensures keys { self.new.keys.items ≡ self.old.keys.items }
        ensures locations { self.new.locations ≡ self.old.locations }
    {
        self.keys.reserve(self.locations as usize)?;
        self.numbers.reserve(self.locations as usize)
    }

    /// The number of standings.
    pub(crate) fn len(&self) -> usize
        ensures { result ≡ length self.now.keys.items }
    {
        self.keys.len()
    }

    /// A standing by its number.
    pub(crate) fn standing(&self, number: usize) -> (Loc, State)
        requires within { number < length self.now.keys.items }
        ensures { slice_get self.now.keys.items number ≡ Some result }
    {
        self.keys[number]
    }

    /// The number of the standing at a location with a state, if it was found.
    pub(crate) fn number(&self, at: Loc, state: State) -> Option<u16>
        requires within { at < self.now.locations }
        ensures { result ≡ number_in self.now.rows.items self.now.numbers.items (at, state) }
    {
        let row = row_of(&self.rows, state)?;
        self.numbers[row + at.number() as usize]
    }

    // Where the row of a state begins, which is made where it has none.
    fn row(&mut self, state: State) -> Result<usize, AllocError>
        ensures keys { self.new.keys ≡ self.old.keys }
        ensures locations { self.new.locations ≡ self.old.locations }
        ensures row { IfOk result (λ row. entry self.new.rows.items state ≡ Some row) }
    {
        if let Some(row) = row_of(&self.rows, state) {
            return Ok(row);
        }
        make_room(&mut self.rows, state.number() as usize)?;
        let row = self.numbers.len();
        self.numbers.resize(row + self.locations as usize, None)?;
        self.rows[state.number() as usize] = Some(row);
        Ok(row)
    }

    /// The number of the standing at a location with a state, which is put behind the others where it isn't among them.
    pub(crate) fn insert(&mut self, at: Loc, state: State) -> Result<u32, NoMemory>
        requires within { at < self.old.locations }
        requires few { length self.old.keys.items ≤ NODES }
        ensures keys { OnOk result (self.new.keys.items ≡ with_key self.old.keys.items (at, state)) }
        ensures number { IfOk result (λ n. slice_get self.new.keys.items n ≡ Some (at, state)) }
        ensures err { OnErr result (self.new.keys.items ≡ self.old.keys.items) }
        ensures locations { self.new.locations ≡ self.old.locations }
    {
        if let Some(number) = self.number(at, state) {
            return Ok(number as u32);
        }
        let row = self.row(state)?;
        let number = self.keys.len();
        self.keys.push((at, state))?;
        self.numbers[row + at.number() as usize] = Some(number as u16);
        Ok(number as u32)
    }
}
