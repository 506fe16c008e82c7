//! The normal forms of a set, a complement and a repetition.
ghost use Rattle.std.specs.Prelude.{◌≡◌, ◌<◌, length, IfOk};
ghost use Rattle.net_base.specs.Sets.{same_set};
ghost use Rattle.path_exprs.specs.Normal.{complement_of as complement_spec, normal_set as normal_set_of, star_of as star_spec};
ghost use Rattle.path_terms.specs.Terms.{Extends};
ghost use Rattle.path_terms.specs.Values.{values, value};

use crate::alternation::{everything, is_all};
use crate::store::Terms;
use crate::term::Term;
use input_output::NoMemory;
use net_base::LocSet;

/// The normal form of a set.
pub fn set_of(terms: &mut Terms, set: &LocSet) -> Result<u32, NoMemory>
    ensures made { IfOk result (λ n. value terms.new n ≡ normal_set_of set.now) }
    ensures known { IfOk result (λ n. n < length (values terms.new)) }
    ensures extends { Extends (values terms.old) (values terms.new) }
{
    if set.is_empty() {
        terms.intern(Term::Never)
    } else {
        terms.intern(Term::Set(*set))
    }
}

/// The normal form of a complement.
pub fn complement_of(terms: &mut Terms, a: u32) -> Result<u32, NoMemory>
    requires known { a < length (values terms.old) }
    ensures made { IfOk result (λ n. value terms.new n ≡ complement_spec (value terms.old a)) }
    ensures known { IfOk result (λ n. n < length (values terms.new)) }
    ensures extends { Extends (values terms.old) (values terms.new) }
{
    match terms.term(a) {
        Term::Not(b) => Ok(*b),
        _ => terms.intern(Term::Not(a)),
    }
}

// Whether the two sets are equal.
fn is_same(a: &LocSet, b: &LocSet) -> bool
    ensures { result ≡ same_set a.now b.now }
{
    a == b
}

/// The normal form of a repetition, where `full` is the set of all locations.
pub fn star_of(terms: &mut Terms, full: &LocSet, a: u32) -> Result<u32, NoMemory>
    requires known { a < length (values terms.old) }
    ensures made { IfOk result (λ n. value terms.new n ≡ star_spec full.now (value terms.old a)) }
    ensures known { IfOk result (λ n. n < length (values terms.new)) }
    ensures extends { Extends (values terms.old) (values terms.new) }
{
    match terms.term(a) {
        Term::Never => terms.intern(Term::Empty),
        Term::Empty => Ok(a),
        Term::Star(_) => Ok(a),
        Term::Set(set) => {
            if is_same(set, full) {
                everything(terms)
            } else {
                terms.intern(Term::Star(a))
            }
        }
        _ => {
            if is_all(terms, a) {
                Ok(a)
            } else {
                terms.intern(Term::Star(a))
            }
        }
    }
}
