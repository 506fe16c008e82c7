//! Classes of nodes that stand equally high.
ghost use Rattle.std.specs.Prelude.{◌≡◌, ◌<◌, ◌≤◌, ◌&&◌, IfOk, length, nat_lt};
ghost use Rattle.graph_base.specs.declared.graph.TheConstants.{MAX_NODES};
ghost use Rattle.relation_law.specs.Numbers.{is_first};
ghost use Rattle.preference_numbers.specs.Inferred.{AreFirsts};
ghost use Rattle.state_simulation.specs.Held.{has};

use bit_rows::{Rows, add_members};
use input_output::NoMemory;
use state_simulation::Relation;
use std::alloc::{AllocError, Global};

/// One row, with a bit for each of so many nodes that is the first of its class.
pub fn firsts(alloc: Global, relation: &Relation, count: u32) -> Result<Rows, NoMemory>
    requires size { count ≡ length relation.now.places }
    requires few { count ≤ MAX_NODES }
    ensures { IfOk result (AreFirsts count relation.now) }
{
    let mut firsts = Rows::new(alloc, 1, count)?;
    let mut higher = Vec::new(alloc);
    for p in 0..count {
        if is_first_of_class(relation, p, &mut higher)? {
            firsts.set(0, p);
        }
    }
    Ok(firsts)
}

// Whether no node with a lesser number stands as high. The list is for those that stand at least as high.
fn is_first_of_class(relation: &Relation, p: u32, higher: &mut Vec<u32>) -> Result<bool, AllocError>
    requires { p < length relation.now.places }
    ensures { IfOk result (λ is. is ≡ is_first (has relation.now) p) }
{
    higher.clear();
    add_members(relation.rows().row(p), higher)?;
    for q in higher.as_slice() {
        if is_earlier_equal(relation, *q, p) {
            return Ok(false);
        }
    }
    Ok(true)
}

// Whether q has a lesser number than p and stands as high.
fn is_earlier_equal(relation: &Relation, q: u32, p: u32) -> bool
    requires { p < length relation.now.places }
    ensures { result ≡ (nat_lt q p && (has relation.now p q && has relation.now q p)) }
{
    // The bit alone tells most pairs apart.
    q < p && relation.rows().get(q, p) && relation.has(p, q) && relation.has(q, p)
}
