//! Classes of locations: those of one class are in the same sets of each expression.
ghost use Rattle.std.specs.Prelude.{◌≡◌, ℕ, ◌<◌, Bool, IfOk, IsTrue, OnOk, length, map, take};
ghost use Rattle.std.specs.List.{list_all};
ghost use Rattle.net_base.specs.declared.loc.LocSet.{LocSet};
ghost use Rattle.net_base.specs.Sets.{holds};
ghost use Rattle.path_terms.specs.Values.{values, value};
ghost use Rattle.path_automata.specs.Sets.{agrees, sets_pass};
ghost use Rattle.path_automata.specs.Classes.{AreBelow, AreSorted, Gathers, SameClass};

use indexmap::IndexSet;
use net_base::{Loc, LocSet};
use path_terms::{Term, Terms};
use std::alloc::{AllocError, Global};

/// The class of each of the first locations, so many, and how many classes there are.
pub fn classes_of(
    alloc: Global,
    terms: &Terms,
    locations: u16,
) -> Result<(Vec<usize>, usize), AllocError>
    ensures below { IfOk result (λ r. AreBelow r.0.items r.1) }
    ensures sorted { IfOk result (λ r. AreSorted r.0.items (values terms.now)) }
{
    let sets = gather(alloc, terms)?;
    classes_by(alloc, sets.as_slice(), locations)
}

// Gives those of the first locations, so many, that are in the same sets the same class.
fn classes_by(
    alloc: Global,
    sets: &[LocSet],
    locations: u16,
) -> Result<(Vec<usize>, usize), AllocError>
    ensures below { IfOk result (λ r. AreBelow r.0.items r.1) }
    ensures agree { IfOk result (λ r. (x y : ℕ) → SameClass r.0.items x y → IsTrue (list_all (agrees x y) sets.now)) }
{
    let mut signatures = IndexSet::new(alloc);
    let mut classes = Vec::new(alloc);
    for at in 0..locations {
        let signature = signature_of(alloc, sets, Loc::new(at))?;
        let (class, _) = signatures.insert_full(signature)?;
        classes.push(class)?;
    }
    Ok((classes, signatures.len()))
}

// Whether each set holds the location.
fn signature_of(alloc: Global, sets: &[LocSet], at: Loc) -> Result<Vec<bool>, AllocError>
    ensures { IfOk result (λ r. r.items ≡ map (λ s. holds s at) sets.now) }
{
    let mut signature = Vec::new(alloc);
    for set in sets {
        signature.push(set.holds(at))?;
    }
    Ok(signature)
}

// The sets of the terms, so that what holds of each of these holds of each set of each term's expression.
fn gather(alloc: Global, terms: &Terms) -> Result<IndexSet<LocSet>, AllocError>
    ensures { IfOk result (λ r. (p : LocSet → Bool) → IsTrue (list_all p r.keys) → IsTrue (list_all (sets_pass p) (values terms.now))) }
{
    let mut sets = IndexSet::new(alloc);
    for number in 0..terms.len() {
        add_set(&mut sets, terms, number as u32)?;
    }
    Ok(sets)
}

// Puts the set of a term to the others, if it is a set.
fn add_set(sets: &mut IndexSet<LocSet>, terms: &Terms, number: u32) -> Result<(), AllocError>
    requires known { number < length (values terms.now) }
    ensures { OnOk result (Gathers sets.old.keys sets.new.keys (take number (values terms.now)) (value terms.now number)) }
{
    if let Term::Set(set) = terms.term(number) {
        sets.insert(*set)?;
    }
    Ok(())
}
