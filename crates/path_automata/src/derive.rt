//! The derivative.
ghost use Rattle.std.specs.Prelude.{◌≡◌, ◌≤◌, ◌<◌, length, map, true, vec_len, IfOk};
ghost use Rattle.path_exprs.specs.Derivative.{derivative as derivative_of};
ghost use Rattle.path_terms.specs.Terms.{are_known, Extends};
ghost use Rattle.path_terms.specs.Values.{values, value};
ghost use Rattle.path_automata.specs.Classes.{AreSorted, IsClassed};
ghost use Rattle.path_automata.specs.Derived.{AreDerivatives};

use crate::derived::{note, recall};
use crate::shortcuts::{front, joined};
use indexmap::IndexMap;
use input_output::NoMemory;
use net_base::Loc;
use path_terms::{Term, Terms, both_of, complement_of, either_of, holds_empty};
use std::alloc::Global;

// Whether derivatives of the term are kept: of lists and complements, since those of others cost no more than a look-up.
fn is_kept(terms: &Terms, e: u32) -> bool
    requires known { e < length (values terms.now) }
{
    match terms.term(e) {
        Term::Either(_) | Term::Both(_) | Term::Not(_) => true,
        _ => false,
    }
}

// The derivative of a term by a location.
#[cycle(derivative)]
fn derivative(
    terms: &mut Terms,
    classes: &[usize],
    derived: &mut IndexMap<(u32, usize), u32>,
    alloc: Global,
    e: u32,
    at: Loc,
) -> Result<u32, NoMemory>
    requires derived { AreDerivatives classes.now (values terms.old) derived.old }
    requires known { e < length (values terms.old) }
    requires classed { IsClassed classes.now (value terms.old e) }
    ensures derived { AreDerivatives classes.now (values terms.new) derived.new }
    ensures made { IfOk result (λ n. value terms.new n ≡ derivative_of at (value terms.old e)) }
    ensures known { IfOk result (λ n. n < length (values terms.new)) }
    ensures extends { Extends (values terms.old) (values terms.new) }
{
    if !is_kept(terms, e) {
        return made(terms, classes, derived, alloc, e, at);
    }
    match recall(terms, classes, derived, e, at) {
        Some(d) => Ok(d),
        None => {
            let d = made(terms, classes, derived, alloc, e, at)?;
            note(terms, classes, derived, e, at, d)?;
            Ok(d)
        }
    }
}

// The derivative of a term by a location, made anew.
#[cycle(derivative)]
fn made(
    terms: &mut Terms,
    classes: &[usize],
    derived: &mut IndexMap<(u32, usize), u32>,
    alloc: Global,
    e: u32,
    at: Loc,
) -> Result<u32, NoMemory>
    requires derived { AreDerivatives classes.now (values terms.old) derived.old }
    requires known { e < length (values terms.old) }
    requires classed { IsClassed classes.now (value terms.old e) }
    ensures derived { AreDerivatives classes.now (values terms.new) derived.new }
    ensures made { IfOk result (λ n. value terms.new n ≡ derivative_of at (value terms.old e)) }
    ensures known { IfOk result (λ n. n < length (values terms.new)) }
    ensures extends { Extends (values terms.old) (values terms.new) }
{
    match terms.term(e) {
        Term::Not(a) => {
            let a = *a;
            let inner = derivative(terms, classes, derived, alloc, a, at)?;
            complement_of(terms, inner)
        }
        Term::Star(a) => {
            let a = *a;
            let first = derivative(terms, classes, derived, alloc, a, at)?;
            terms.seq_of(first, e)
        }
        Term::Set(set) => {
            if set.holds(at) {
                terms.intern(Term::Empty)
            } else {
                terms.intern(Term::Never)
            }
        }
        Term::Seq(a, b) => {
            let a = *a;
            let b = *b;
            let first = derivative(terms, classes, derived, alloc, a, at)?;
            let kept = front(terms, e, a, b, first)?;
            if holds_empty(terms, a) {
                let back = derivative(terms, classes, derived, alloc, b, at)?;
                joined(terms, alloc, kept, back)
            } else {
                Ok(kept)
            }
        }
        Term::Never => terms.intern(Term::Never),
        Term::Empty => terms.intern(Term::Never),
        Term::Either(members) => {
            let members = copied(alloc, members)?;
            let all = derivatives(terms, classes, derived, alloc, e as usize, &members, at)?;
            either_of(terms, alloc, &all)
        }
        Term::Both(members) => {
            let members = copied(alloc, members)?;
            let all = derivatives(terms, classes, derived, alloc, e as usize, &members, at)?;
            both_of(terms, alloc, &all)
        }
    }
}

// A list of the same numbers.
fn copied(alloc: Global, numbers: &[u32]) -> Result<Vec<u32>, NoMemory>
    ensures { IfOk result (λ r. r.items ≡ numbers.now) }
{
    let mut all = Vec::new(alloc);
    all.extend_from_slice(numbers)?;
    Ok(all)
}

/// The derivative of each of these terms, all below a number.
#[cycle(derivative)]
pub fn derivatives(
    terms: &mut Terms,
    classes: &[usize],
    derived: &mut IndexMap<(u32, usize), u32>,
    alloc: Global,
    bound: usize,
    numbers: &[u32],
    at: Loc,
) -> Result<Vec<u32>, NoMemory>
    requires derived { AreDerivatives classes.now (values terms.old) derived.old }
    requires bound { bound ≤ length (values terms.old) }
    requires below { are_known bound numbers.now ≡ true }
    requires classed { AreSorted classes.now (map (value terms.old) numbers.now) }
    ensures derived { AreDerivatives classes.now (values terms.new) derived.new }
    ensures made { IfOk result (λ r. map (value terms.new) r.items ≡ map (derivative_of at) (map (value terms.old) numbers.now)) }
    ensures known { IfOk result (λ r. are_known (length (values terms.new)) r.items ≡ true) }
    ensures len { IfOk result (λ r. vec_len r ≡ length numbers.now) }
    ensures extends { Extends (values terms.old) (values terms.new) }
{
    let mut all = Vec::new(alloc);
    for i in 0..numbers.len() {
        all.push(derivative(terms, classes, derived, alloc, numbers[i], at)?)?;
    }
    Ok(all)
}
