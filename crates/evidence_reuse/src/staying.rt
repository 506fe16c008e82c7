//! Which cases stay.
ghost use Rattle.std.specs.Prelude.{◌≡◌, ◌<◌, ◌-◌, ℕ, IfNone, IfOk, IfSome, Some, length, slice_get};
ghost use Rattle.std.specs.List.{list_any};
ghost use Rattle.evidence_base.specs.Made.{PlainCaseEvidence};
ghost use Rattle.evidence_reuse.specs.Staying.{
  AreNumbers,
  IsNumber,
  IsOldClass,
  Stays,
  has_nodes as has_any_nodes,
  is_number as is_this_number,
  is_other,
  is_pair as is_of_pair,
  partner as partner_of,
};

use crate::alike::is_same_case;
use evidence_base::CaseEvidence;
use stage_classes::Cell;
use std::alloc::{AllocError, Global};

/// What is compiled, beside an old configuration and its evidence.
#[derive(Drop)]
pub(crate) struct Beside<'a> {
    /// The pairs of an old class and a compiled one that share prefixes.
    pub cells: &'a [Cell],
    /// The evidence of the old configuration.
    pub olds: &'a [CaseEvidence],
    /// What is compiled.
    pub compiled: &'a [CaseEvidence],
}

// Whether the class of the old configuration with this number, from 1, has a case with nodes.
fn has_nodes(olds: &[CaseEvidence], class: usize) -> bool
    ensures { result ≡ has_any_nodes (slice_get olds.now (class - 1)) }
{
    match olds.get(class.saturating_sub(1)) {
        Some(case) => !case.graph().nodes().is_empty(),
        None => false,
    }
}

// Whether a cell is of this class of the new configuration and of a class of the old one that has nodes.
fn is_pair(olds: &[CaseEvidence], class: usize, cell: &Cell) -> bool
    ensures { result ≡ is_of_pair olds.now class cell.now }
{
    cell.second == class && has_nodes(olds, cell.first)
}

// The first such class of the old configuration with which a class shares prefixes.
fn partner(olds: &[CaseEvidence], cells: &[Cell], class: usize) -> Option<usize>
    ensures { result ≡ partner_of olds.now cells.now class }
{
    for cell in cells {
        if is_pair(olds, class, cell) {
            return Some(cell.first);
        }
    }
    None
}

// Whether it shares prefixes with another one than this.
fn shares_with_other(olds: &[CaseEvidence], cells: &[Cell], class: usize, was: usize) -> bool
    ensures { result ≡ list_any (is_other olds.now class was) cells.now }
{
    cells
        .iter()
        .any(|cell| is_pair(olds, class, cell) && cell.first != was)
}

// Whether the number is this one.
fn is_number(number: Option<usize>, was: usize) -> bool
    ensures { result ≡ is_this_number was number }
{
    match number {
        Some(n) => n == was,
        None => false,
    }
}

// Whether it is among these.
fn is_among(numbers: &[Option<usize>], was: usize) -> bool
    ensures { result ≡ list_any (is_this_number was) numbers.now }
{
    numbers.iter().any(|number| is_number(*number, was))
}

impl<'a> Beside<'a> {
    // The class of the old configuration, from 1, that alone among those with nodes shares prefixes with the compiled class at this place.
    fn old_class(&self, place: usize) -> Option<usize>
        requires { place < length self.now.compiled.now }
        ensures class { IfSome result (IsOldClass self.now.cells.now self.now.olds.now place) }
        ensures none { IfNone result ((was : ℕ) → IsOldClass self.now.cells.now self.now.olds.now place was → ⊥) }
    {
        let was = partner(self.olds, self.cells, place + 1)?;
        if shares_with_other(self.olds, self.cells, place + 1, was) {
            return None;
        }
        Some(was)
    }

    // The class of the old configuration, from 1, as which a compiled case may stay whose class has this place.
    fn number(&self, place: usize, case: &CaseEvidence) -> Option<usize>
        requires { place < length self.now.compiled.now }
        ensures { IsNumber self.now.cells.now self.now.olds.now place case.now result }
    {
        let was = self.old_class(place)?;
        let before = self.olds.get(was.saturating_sub(1))?;
        if is_same_case(case, before) {
            Some(was)
        } else {
            None
        }
    }

    /// For each compiled case the class of the old configuration as which it may stay.
    pub fn numbers(&self, alloc: Global) -> Result<Vec<Option<usize>>, AllocError>
        ensures { IfOk result (λ v. AreNumbers self.now.cells.now self.now.olds.now self.now.compiled.now v.items) }
    {
        let mut numbers = Vec::new(alloc);
        for place in 0..self.compiled.len() {
            numbers.push(self.number(place, &self.compiled[place]))?;
        }
        Ok(numbers)
    }

    // The old case of this class, as which the case at this place may stay, unless a later one may.
    fn unless_later(
        &self,
        numbers: &[Option<usize>],
        place: usize,
        case: &CaseEvidence,
        was: usize,
    ) -> Option<&'a CaseEvidence>
        requires numbers { AreNumbers self.now.cells.now self.now.olds.now self.now.compiled.now numbers.now }
        requires at { slice_get self.now.compiled.now place ≡ Some case.now }
        requires may { slice_get numbers.now place ≡ Some (Some was) }
        ensures stays { IfSome result (λ e. Stays self.now.cells.now self.now.olds.now self.now.compiled.now place case.now e.now) }
        ensures none { IfNone result ((e : PlainCaseEvidence) → Stays self.now.cells.now self.now.olds.now self.now.compiled.now place case.now e → ⊥) }
    {
        if is_among(&numbers[place + 1..], was) {
            return None;
        }
        self.olds.get(was.saturating_sub(1))
    }

    /// The old case as which a compiled case stays whose class has this place, if it stays: as which it may stay and no later one may.
    pub fn staying(
        &self,
        numbers: &[Option<usize>],
        place: usize,
        case: &CaseEvidence,
    ) -> Option<&'a CaseEvidence>
        requires numbers { AreNumbers self.now.cells.now self.now.olds.now self.now.compiled.now numbers.now }
        requires at { slice_get self.now.compiled.now place ≡ Some case.now }
        ensures stays { IfSome result (λ e. Stays self.now.cells.now self.now.olds.now self.now.compiled.now place case.now e.now) }
        ensures none { IfNone result ((e : PlainCaseEvidence) → Stays self.now.cells.now self.now.olds.now self.now.compiled.now place case.now e → ⊥) }
    {
        match numbers[place] {
            Some(was) => self.unless_later(numbers, place, case, was),
            None => None,
        }
    }
}
