//! The pairs of nodes to which one list of places leads.
ghost use Rattle.std.specs.Prelude.{◌≡◌, ◌↔◌, ℕ, List, IfOk, OnOk, is_some, length};
ghost use Rattle.list_law.specs.Members.{IsIn};
ghost use Rattle.node_classes.specs.Meets.{AreMet, with_pairs};
ghost use Rattle.node_classes.specs.Stages.{targets};
ghost use Rattle.node_classes.specs.Ways.{Ascend, follow};

use crate::way::{Way, ways_of};
use indexmap::IndexSet;
use std::alloc::{AllocError, Global};

// Puts the pairs of targets, of ways to the same places, behind those that were found.
fn add_pairs(found: &mut IndexSet<(u32, u32)>, one: &[Way], other: &[Way]) -> Result<(), AllocError>
    requires { length one.now ≡ length other.now }
    ensures { OnOk result (found.new.keys ≡ with_pairs found.old.keys (targets one.now other.now)) }
{
    for i in 0..one.len() {
        found.insert((one[i].to, other[i].to))?;
    }
    Ok(())
}

/// The pairs of nodes to which one list of places leads from `a` and from `b`, where the same lists can be followed from
/// both. There may be as many as pairs of nodes; more than 32 bits can count are answered by want of memory.
pub fn pairs_met(
    alloc: Global,
    ways: &[Way],
    a: u32,
    b: u32,
) -> Result<IndexSet<(u32, u32)>, AllocError>
    requires order { Ascend ways.now }
    requires alike { (path : List ℕ) → is_some (follow ways.now a path) ≡ is_some (follow ways.now b path) }
    ensures { IfOk result (λ pairs. (x y : ℕ) → IsIn pairs.keys (x, y) ↔ AreMet ways.now a b x y) }
{
    let mut found = IndexSet::new(alloc);
    found.insert((a, b))?;
    for place in 0..u32::MAX {
        let Some(pair) = found.get_index(place as usize) else {
            return Ok(found);
        };
        let (x, y) = *pair;
        add_pairs(&mut found, ways_of(ways, x), ways_of(ways, y))?;
    }
    Err(AllocError)
}
