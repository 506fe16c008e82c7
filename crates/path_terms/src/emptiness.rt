//! Whether the empty list is in an expression.
ghost use Rattle.std.specs.Prelude.{◌≡◌, ◌<◌, [], length, map, true};
ghost use Rattle.std.specs.List.{list_all, list_any};
ghost use Rattle.path_exprs.specs.Membership.{member};
ghost use Rattle.path_terms.specs.Terms.{are_known};
ghost use Rattle.path_terms.specs.Values.{values, value};

use crate::store::Terms;
use crate::term::Term;

/// Whether the empty list is in the expression of a term.
#[cycle(holds_empty)]
pub fn holds_empty(terms: &Terms, number: u32) -> bool
    requires known { number < length (values terms.now) }
    ensures { result ≡ member (value terms.now number) [] }
{
    match terms.term(number) {
        Term::Never => false,
        Term::Empty => true,
        Term::Set(_) => false,
        Term::Seq(a, b) => holds_empty(terms, *a) && holds_empty(terms, *b),
        Term::Either(members) => some_holds_empty(terms, number, members),
        Term::Both(members) => each_holds_empty(terms, number, members),
        Term::Not(a) => !holds_empty(terms, *a),
        Term::Star(_) => true,
    }
}

// Whether the empty list is in one of these, all below a number.
#[cycle(holds_empty)]
fn some_holds_empty(terms: &Terms, bound: u32, numbers: &[u32]) -> bool
    requires bound { bound < length (values terms.now) }
    requires below { are_known bound numbers.now ≡ true }
    ensures { result ≡ list_any (λ e. member e []) (map (value terms.now) numbers.now) }
{
    for i in 0..numbers.len() {
        if holds_empty(terms, numbers[i]) {
            return true;
        }
    }
    false
}

// Whether the empty list is in each of these, all below a number.
#[cycle(holds_empty)]
fn each_holds_empty(terms: &Terms, bound: u32, numbers: &[u32]) -> bool
    requires bound { bound < length (values terms.now) }
    requires below { are_known bound numbers.now ≡ true }
    ensures { result ≡ list_all (λ e. member e []) (map (value terms.now) numbers.now) }
{
    for i in 0..numbers.len() {
        if !holds_empty(terms, numbers[i]) {
            return false;
        }
    }
    true
}
