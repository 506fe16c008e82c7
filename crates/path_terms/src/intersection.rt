//! Members of intersections.
ghost use Rattle.std.specs.Prelude.{◌≡◌, ◌<◌, ◌++◌, true, length, map, OnOk};
ghost use Rattle.path_exprs.specs.Normal.{both_parts, sorted};
ghost use Rattle.path_terms.specs.Terms.{are_known};
ghost use Rattle.path_terms.specs.Values.{values, value};

use crate::alternation::is_all;
use crate::store::Terms;
use crate::term::Term;
use input_output::NoMemory;

/// What a member adds to an intersection: here the expression of every list adds nothing.
pub(crate) fn add_parts(terms: &Terms, number: u32, all: &mut Vec<u32>) -> Result<(), NoMemory>
    requires known { number < length (values terms.now) }
    requires all_known { are_known (length (values terms.now)) all.old.items ≡ true }
    ensures added { OnOk result (sorted (map (value terms.now) all.new.items) ≡ sorted (map (value terms.now) all.old.items ++ both_parts (value terms.now number))) }
    ensures known { OnOk result (are_known (length (values terms.now)) all.new.items ≡ true) }
{
    if is_all(terms, number) {
        return Ok(());
    }
    match terms.term(number) {
        Term::Both(members) => Ok(all.extend_from_slice(members)?),
        _ => Ok(all.push(number)?),
    }
}
