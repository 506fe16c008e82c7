//! Terms by their numbers.
ghost use Rattle.std.specs.Prelude.{◌≡◌, true, ◌<◌, ◌≤◌, ◌^◌, [], length, IfOk};
ghost use Rattle.path_terms.specs.Terms.{each_sound, AreApart, expressions};

use crate::term::Term;
use indexmap::IndexSet;
use input_output::NoMemory;
use std::alloc::Global;

/// Terms, each with a number of its own. What a term stands for is an expression, and no expression has two numbers.
#[derive(Drop)]
pub struct Terms {
    found: IndexSet<Term>,
    ghost sound: { each_sound 0 found.keys ≡ true },
    ghost apart: { AreApart (expressions found.keys) },
    ghost few: { length found.keys ≤ 2 ^ 32 },
}

impl Terms {
    ghost use Rattle.path_terms.specs.Terms.{Extends, is_sound, node, is_empty as is_empty_test};
    ghost use Rattle.path_exprs.specs.Expression.{Expression, seq};
    ghost use Rattle.path_exprs.specs.Normal.{after as after_spec, seq_of as seq_spec, is_never as is_never_test};
    ghost use Rattle.std.specs.Prelude.{IfSome, IfNone};
    ghost use Rattle.path_terms.specs.Values.{values, value};

    /// No term.
    pub fn new(alloc: Global) -> Terms
        ensures { values result ≡ [] }
    {
        Terms {
            found: IndexSet::new(alloc),
        }
    }

    /// The number of a term, which is put behind the others where it isn't among them.
    pub fn intern(&mut self, term: Term) -> Result<u32, NoMemory>
        requires sound { is_sound (length (values self.old)) term ≡ true }
        ensures made { IfOk result (λ n. value self.new n ≡ node (values self.old) term) }
        ensures known { IfOk result (λ n. n < length (values self.new)) }
        ensures extends { Extends (values self.old) (values self.new) }
    {
        if self.found.len() > u32::MAX as usize {
            return Err(NoMemory);
        }
        let (number, _) = self.found.insert_full(term)?;
        Ok(number as u32)
    }

    /// The count of terms: their numbers are those below it.
    pub fn len(&self) -> usize
        ensures len { result ≡ length (values self.now) }
        ensures few { result ≤ 2 ^ 32 }
    {
        self.found.len()
    }

    /// The term of a number.
    pub fn term(&self, number: u32) -> &Term
        requires known { number < length (values self.now) }
        ensures node { value self.now number ≡ node (values self.now) result.now }
        ensures sound { is_sound number result.now ≡ true }
    {
        let Some(term) = self.found.get_index(number as usize) else {
            unreachable!()
        };
        term
    }

    /// Whether the term of a number is Never.
    pub fn is_never(&self, number: u32) -> bool
        requires known { number < length (values self.now) }
        ensures { result ≡ is_never_test (value self.now number) }
    {
        match self.term(number) {
            Term::Never => true,
            _ => false,
        }
    }

    /// Whether the term of a number is Empty.
    pub fn is_empty(&self, number: u32) -> bool
        requires known { number < length (values self.now) }
        ensures { result ≡ is_empty_test (value self.now number) }
    {
        match self.term(number) {
            Term::Empty => true,
            _ => false,
        }
    }

    // Both sides of a sequence.
    fn sides(&self, number: u32) -> Option<(u32, u32)>
        requires known { number < length (values self.now) }
        ensures some { IfSome result (λ p. value self.now number ≡ seq (value self.now p.0) (value self.now p.1)) }
        ensures before { IfSome result (λ p. (p.0 < number) × (p.1 < number)) }
        ensures none { IfNone result ((c : Expression) → after_spec (value self.now number) c ≡ seq (value self.now number) c) }
    {
        match self.term(number) {
            Term::Seq(a, b) => Some((*a, *b)),
            _ => None,
        }
    }

    // A sequence of two sides that are neither Never nor Empty.
    fn after(&mut self, a: u32, c: u32) -> Result<u32, NoMemory>
        requires first { a < length (values self.old) }
        requires second { c < length (values self.old) }
        ensures made { IfOk result (λ n. value self.new n ≡ after_spec (value self.old a) (value self.old c)) }
        ensures known { IfOk result (λ n. n < length (values self.new)) }
        ensures extends { Extends (values self.old) (values self.new) }
    {
        match self.sides(a) {
            Some((first, second)) => {
                let rest = self.after(second, c)?;
                self.intern(Term::Seq(first, rest))
            }
            None => self.intern(Term::Seq(a, c)),
        }
    }

    /// The normal form of a sequence.
    pub fn seq_of(&mut self, a: u32, b: u32) -> Result<u32, NoMemory>
        requires first { a < length (values self.old) }
        requires second { b < length (values self.old) }
        ensures made { IfOk result (λ n. value self.new n ≡ seq_spec (value self.old a) (value self.old b)) }
        ensures known { IfOk result (λ n. n < length (values self.new)) }
        ensures extends { Extends (values self.old) (values self.new) }
    {
        if self.is_never(a) || self.is_empty(b) {
            return Ok(a);
        }
        if self.is_empty(a) || self.is_never(b) {
            return Ok(b);
        }
        self.after(a, b)
    }
}
