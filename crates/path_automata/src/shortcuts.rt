//! Cheap answers for what derivatives of sequences mostly are.
ghost use Rattle.std.specs.Prelude.{◌≡◌, ◌<◌, ◌∷◌, [], false, true, length, IfOk};
ghost use Rattle.path_exprs.specs.Expression.{Expression, never, seq};
ghost use Rattle.path_exprs.specs.Normal.{after, either_of as either_spec, is_never as is_never_test, seq_of as seq_spec};
ghost use Rattle.path_terms.specs.Terms.{is_empty as is_empty_test, Extends};
ghost use Rattle.path_terms.specs.Values.{values, value};

use input_output::NoMemory;
use path_terms::{Term, Terms, either_of};
use std::alloc::Global;

// Whether the term is neither Never nor Empty nor a sequence.
fn is_plain(terms: &Terms, n: u32) -> bool
    requires known { n < length (values terms.now) }
    ensures never { result ≡ true → is_never_test (value terms.now n) ≡ false }
    ensures empty { result ≡ true → is_empty_test (value terms.now n) ≡ false }
    ensures after { result ≡ true → (c : Expression) → after (value terms.now n) c ≡ seq (value terms.now n) c }
{
    match terms.term(n) {
        Term::Never => false,
        Term::Empty => false,
        Term::Seq(_, _) => false,
        _ => true,
    }
}

/// The sequence of a derivative of a term's first side and its second side: the term itself, where the derivative is that side.
pub fn front(terms: &mut Terms, e: u32, a: u32, b: u32, first: u32) -> Result<u32, NoMemory>
    requires term { value terms.old e ≡ seq (value terms.old a) (value terms.old b) }
    requires e { e < length (values terms.old) }
    requires a { a < length (values terms.old) }
    requires b { b < length (values terms.old) }
    requires first { first < length (values terms.old) }
    ensures made { IfOk result (λ n. value terms.new n ≡ seq_spec (value terms.old first) (value terms.old b)) }
    ensures known { IfOk result (λ n. n < length (values terms.new)) }
    ensures extends { Extends (values terms.old) (values terms.new) }
{
    if first == a && is_plain(terms, a) && !terms.is_never(b) && !terms.is_empty(b) {
        return Ok(e);
    }
    terms.seq_of(first, b)
}

// Whether the term is an alternation.
fn is_either(terms: &Terms, n: u32) -> bool
    requires known { n < length (values terms.now) }
    ensures { result ≡ false → value terms.now n ≡ either_spec (value terms.now n ∷ never ∷ []) }
{
    match terms.term(n) {
        Term::Either(_) => true,
        _ => false,
    }
}

/// The alternation of two terms: the first itself, where the second is Never and the first no alternation.
pub fn joined(terms: &mut Terms, alloc: Global, first: u32, second: u32) -> Result<u32, NoMemory>
    requires first { first < length (values terms.old) }
    requires second { second < length (values terms.old) }
    ensures made { IfOk result (λ n. value terms.new n ≡ either_spec (value terms.old first ∷ value terms.old second ∷ [])) }
    ensures known { IfOk result (λ n. n < length (values terms.new)) }
    ensures extends { Extends (values terms.old) (values terms.new) }
{
    if terms.is_never(second) && !is_either(terms, first) {
        return Ok(first);
    }
    either_of(terms, alloc, &[first, second])
}
