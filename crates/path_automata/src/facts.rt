//! What is asked of a state: its rank, and whether it is dead.
ghost use Rattle.std.specs.Prelude.{◌≡◌, ◌≤◌, [], length, map, true};
ghost use Rattle.std.specs.List.{list_all};
ghost use Rattle.policy_base.specs.declared.limits.TheConstants.{ALTERNATIVES};
ghost use Rattle.path_exprs.specs.Normal.{is_never as is_never_test};
ghost use Rattle.path_exprs.specs.Runs.{first_with};
ghost use Rattle.path_terms.specs.Terms.{are_known};
ghost use Rattle.path_terms.specs.Values.{values, value};
ghost use Rattle.path_automata.specs.Found.{facts_of as facts_spec};

use path_terms::{Terms, holds_empty};

/// What is asked of a state.
#[derive(Clone, Copy)]
pub struct Facts {
    /// The place, from 1, of the first alternative that holds the empty list.
    pub rank: Option<u32>,
    /// Whether every alternative is Never.
    pub dead: bool,
}

// The place, from 1, of the first that holds the empty list.
fn first_with_empty(terms: &Terms, numbers: &[u32]) -> Option<u32>
    requires known { are_known (length (values terms.now)) numbers.now ≡ true }
    requires few { length numbers.now ≤ ALTERNATIVES }
    ensures { result ≡ first_with [] (map (value terms.now) numbers.now) }
{
    for i in 0..numbers.len() {
        if holds_empty(terms, numbers[i]) {
            return Some(i as u32 + 1);
        }
    }
    None
}

// Whether each is Never.
fn is_each_never(terms: &Terms, numbers: &[u32]) -> bool
    requires known { are_known (length (values terms.now)) numbers.now ≡ true }
    ensures { result ≡ list_all is_never_test (map (value terms.now) numbers.now) }
{
    for number in numbers {
        if !terms.is_never(*number) {
            return false;
        }
    }
    true
}

/// What is asked of the state of these terms.
pub fn facts_of(terms: &Terms, numbers: &[u32]) -> Facts
    requires known { are_known (length (values terms.now)) numbers.now ≡ true }
    requires few { length numbers.now ≤ ALTERNATIVES }
    ensures { result ≡ facts_spec (map (value terms.now) numbers.now) }
{
    Facts {
        rank: first_with_empty(terms, numbers),
        dead: is_each_never(terms, numbers),
    }
}
