//! The normal forms of alternations and of intersections, which are made alike.
ghost use Rattle.std.specs.Prelude.{◌≡◌, ◌<◌, ◌++◌, true, length, map, IfOk, OnOk};
ghost use Rattle.std.specs.List.{flat_map, list_any};
ghost use Rattle.path_exprs.specs.Normal.{both_of as both_spec, either_of as either_spec, sorted};
ghost use Rattle.path_terms.specs.Joined.{joined as joined_spec, is_whole as is_whole_test, nothing as nothing_spec, parts, term as term_spec, whole as whole_spec};
ghost use Rattle.path_terms.specs.Terms.{are_known, Extends, IsAscendingOf};
ghost use Rattle.path_terms.specs.Values.{values, value};

use crate::alternation::{everything, is_all};
use crate::store::Terms;
use crate::term::Term;
use input_output::NoMemory;
use std::alloc::Global;

/// What joins members.
#[derive(Clone, Copy)]
pub enum Join {
    /// A list of one of them.
    AnyOf,
    /// A list of each of them.
    AllOf,
}

impl Join {
    // The term of these members.
    fn term(self, members: Vec<u32>) -> Term
        ensures { result ≡ term_spec self members }
    {
        match self {
            Join::AnyOf => Term::Either(members),
            Join::AllOf => Term::Both(members),
        }
    }
}

// Whether no member counts beside this one.
fn is_whole(terms: &Terms, join: Join, number: u32) -> bool
    requires known { number < length (values terms.now) }
    ensures { result ≡ is_whole_test join (value terms.now number) }
{
    match join {
        Join::AnyOf => is_all(terms, number),
        Join::AllOf => terms.is_never(number),
    }
}

// Whether no other member counts beside one of these.
fn is_whole_among(terms: &Terms, join: Join, numbers: &[u32]) -> bool
    requires known { are_known (length (values terms.now)) numbers.now ≡ true }
    ensures { result ≡ list_any (is_whole_test join) (map (value terms.now) numbers.now) }
{
    for number in numbers {
        if is_whole(terms, join, *number) {
            return true;
        }
    }
    false
}

// The member beside which no other counts.
fn whole(terms: &mut Terms, join: Join) -> Result<u32, NoMemory>
    ensures made { IfOk result (λ n. value terms.new n ≡ whole_spec join) }
    ensures known { IfOk result (λ n. n < length (values terms.new)) }
    ensures extends { Extends (values terms.old) (values terms.new) }
{
    match join {
        Join::AnyOf => everything(terms),
        Join::AllOf => terms.intern(Term::Never),
    }
}

// What no member makes.
fn nothing(terms: &mut Terms, join: Join) -> Result<u32, NoMemory>
    ensures made { IfOk result (λ n. value terms.new n ≡ nothing_spec join) }
    ensures known { IfOk result (λ n. n < length (values terms.new)) }
    ensures extends { Extends (values terms.old) (values terms.new) }
{
    match join {
        Join::AnyOf => terms.intern(Term::Never),
        Join::AllOf => everything(terms),
    }
}

// What a member adds.
fn add_parts(terms: &Terms, join: Join, number: u32, all: &mut Vec<u32>) -> Result<(), NoMemory>
    requires known { number < length (values terms.now) }
    requires all_known { are_known (length (values terms.now)) all.old.items ≡ true }
    ensures added { OnOk result (sorted (map (value terms.now) all.new.items) ≡ sorted (map (value terms.now) all.old.items ++ parts join (value terms.now number))) }
    ensures known { OnOk result (are_known (length (values terms.now)) all.new.items ≡ true) }
{
    match join {
        Join::AnyOf => crate::alternation::add_parts(terms, number, all),
        Join::AllOf => crate::intersection::add_parts(terms, number, all),
    }
}

// What the members add.
fn flat(terms: &Terms, alloc: Global, join: Join, members: &[u32]) -> Result<Vec<u32>, NoMemory>
    requires known { are_known (length (values terms.now)) members.now ≡ true }
    ensures same { IfOk result (λ r. sorted (map (value terms.now) r.items) ≡ sorted (flat_map (parts join) (map (value terms.now) members.now))) }
    ensures known { IfOk result (λ r. are_known (length (values terms.now)) r.items ≡ true) }
{
    let mut all = Vec::new(alloc);
    for i in 0..members.len() {
        add_parts(terms, join, members[i], &mut all)?;
    }
    Ok(all)
}

// In ascending order and without repeats.
fn settle(numbers: &mut Vec<u32>)
    ensures { IsAscendingOf numbers.old.items numbers.new.items }
{
    numbers.sort_unstable();
    numbers.dedup();
}

// The normal form of the joined members.
fn joined(terms: &mut Terms, alloc: Global, join: Join, members: &[u32]) -> Result<u32, NoMemory>
    requires known { are_known (length (values terms.old)) members.now ≡ true }
    ensures made { IfOk result (λ n. value terms.new n ≡ joined_spec join (map (value terms.old) members.now)) }
    ensures known { IfOk result (λ n. n < length (values terms.new)) }
    ensures extends { Extends (values terms.old) (values terms.new) }
{
    let mut all = flat(terms, alloc, join, members)?;
    settle(&mut all);
    if is_whole_among(terms, join, &all) {
        return whole(terms, join);
    }
    match all.as_slice() {
        [] => nothing(terms, join),
        [only] => Ok(*only),
        _ => terms.intern(join.term(all)),
    }
}

/// The normal form of an alternation.
pub fn either_of(terms: &mut Terms, alloc: Global, members: &[u32]) -> Result<u32, NoMemory>
    requires known { are_known (length (values terms.old)) members.now ≡ true }
    ensures made { IfOk result (λ n. value terms.new n ≡ either_spec (map (value terms.old) members.now)) }
    ensures known { IfOk result (λ n. n < length (values terms.new)) }
    ensures extends { Extends (values terms.old) (values terms.new) }
{
    joined(terms, alloc, Join::AnyOf, members)
}

/// The normal form of an intersection.
pub fn both_of(terms: &mut Terms, alloc: Global, members: &[u32]) -> Result<u32, NoMemory>
    requires known { are_known (length (values terms.old)) members.now ≡ true }
    ensures made { IfOk result (λ n. value terms.new n ≡ both_spec (map (value terms.old) members.now)) }
    ensures known { IfOk result (λ n. n < length (values terms.new)) }
    ensures extends { Extends (values terms.old) (values terms.new) }
{
    joined(terms, alloc, Join::AllOf, members)
}
