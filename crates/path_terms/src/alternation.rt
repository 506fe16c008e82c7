//! Members of alternations, and the expression that holds every list.
ghost use Rattle.std.specs.Prelude.{◌≡◌, ◌<◌, ◌++◌, true, length, map, IfOk, OnOk};
ghost use Rattle.path_exprs.specs.Normal.{all as all_spec, either_parts, is_all as is_all_test, sorted};
ghost use Rattle.path_terms.specs.Terms.{are_known, Extends};
ghost use Rattle.path_terms.specs.Values.{values, value};

use crate::store::Terms;
use crate::term::Term;
use input_output::NoMemory;

/// Whether the term of a number is Not(Never).
pub fn is_all(terms: &Terms, number: u32) -> bool
    requires known { number < length (values terms.now) }
    ensures { result ≡ is_all_test (value terms.now number) }
{
    match terms.term(number) {
        Term::Not(a) => terms.is_never(*a),
        _ => false,
    }
}

/// The expression that holds every list.
pub(crate) fn everything(terms: &mut Terms) -> Result<u32, NoMemory>
    ensures made { IfOk result (λ n. value terms.new n ≡ all_spec) }
    ensures known { IfOk result (λ n. n < length (values terms.new)) }
    ensures extends { Extends (values terms.old) (values terms.new) }
{
    let never = terms.intern(Term::Never)?;
    terms.intern(Term::Not(never))
}

/// What a member adds to an alternation.
pub(crate) fn add_parts(terms: &Terms, number: u32, all: &mut Vec<u32>) -> Result<(), NoMemory>
    requires known { number < length (values terms.now) }
    requires all_known { are_known (length (values terms.now)) all.old.items ≡ true }
    ensures added { OnOk result (sorted (map (value terms.now) all.new.items) ≡ sorted (map (value terms.now) all.old.items ++ either_parts (value terms.now number))) }
    ensures known { OnOk result (are_known (length (values terms.now)) all.new.items ≡ true) }
{
    match terms.term(number) {
        Term::Never => Ok(()),
        Term::Either(members) => Ok(all.extend_from_slice(members)?),
        _ => Ok(all.push(number)?),
    }
}
