//! What a round takes away, target by target.
ghost use Rattle.std.specs.Prelude.{◌≡◌, ◌*◌, ◌<◌, ◌&&◌, ◌||◌, ℕ, All, IfSome, length, not};
ghost use Rattle.bit_rows.specs.Bits.{has};
ghost use Rattle.bit_rows.specs.Tables.{IsSameSize, has_at};
ghost use Rattle.reach_prune.specs.Searches.{is_among};
ghost use Rattle.relation_law.specs.Rounds.{goes_by};
ghost use Rattle.state_simulation.specs.Held.{IsSquare};
ghost use Rattle.state_simulation.specs.Looked.{shown};
ghost use Rattle.state_simulation.specs.Targets.{AreNodeRows, AreTold, AreWithin, IsWide, Put, gone_in, is_touched, tells};

use crate::maps::Maps;
use crate::masks::make_mask;
use bit_rows::{Rows, outside_is_empty};

/// Takes the pairs away for which a rule fails at a step to a touched target. The last two rows are for masks.
pub fn take_each(
    next: &mut Rows,
    maps: &Maps,
    onwards: &Option<Rows>,
    left: &Rows,
    touched: &[bool],
    mask: &mut [u64],
    looped: &mut [u64],
)
    requires next { AreNodeRows maps.now.graph.now next.old }
    requires onwards { IfSome onwards.now (AreTold maps.now.graph.now) }
    requires left { AreNodeRows maps.now.graph.now left.now }
    requires touched { length touched.now ≡ length maps.now.graph.now.nodes }
    requires mask { length mask.old ≡ next.old.width }
    requires looped { length looped.old ≡ next.old.width }
    requires wide { IsWide (length maps.now.graph.now.nodes) (length mask.old) }
    ensures size { IsSameSize next.new next.old }
    ensures mask { length mask.new ≡ length mask.old }
    ensures looped { length looped.new ≡ length looped.old }
    ensures bits { (n m : ℕ) → n < length maps.now.graph.now.nodes → m < length maps.now.graph.now.nodes
        → has_at next.new n m ≡ (has_at next.old n m && not (goes_by (shown maps.now.graph.now) (tells onwards.now) (gone_in left.now) (is_touched touched.now) m n)) }
{
    let mut held = None;
    for t in maps.by_location() {
        if touched[*t as usize] {
            make_mask(mask, looped, maps, onwards, left, held, *t);
            held = Some(*t);
            keep_each(next, maps.before(*t), mask);
        }
    }
}

// Clears the bits that the mask doesn't have in the rows of these nodes.
fn keep_each(rows: &mut Rows, nodes: &[u32], mask: &[u64])
    requires within { All (λ n. n < rows.old.count) nodes.now }
    requires mask { length mask.now ≡ rows.old.width }
    ensures size { IsSameSize rows.new rows.old }
    ensures bits { (r b : ℕ) → r < rows.old.count → has_at rows.new r b ≡ (has_at rows.old r b && (not (is_among nodes.now r) || has mask.now b)) }
{
    for n in nodes {
        rows.keep(*n, mask);
    }
}

/// Makes the rows those that the round left, and marks where a row lost a bit. The result says whether any did.
pub fn put_each(left: &mut Rows, next: &Rows, touched: &mut [bool]) -> bool
    requires left { IsSquare (length touched.old) left.old }
    requires next { IsSameSize next.now left.old }
    requires within { AreWithin (length touched.old) next.now left.old }
    ensures size { IsSameSize left.new left.old }
    ensures len { length touched.new ≡ length touched.old }
    ensures put { Put (length touched.old) next.now left.old left.new touched.new result }
{
    let mut changed = false;
    for n in 0..touched.len() as u32 {
        let is_lost = !outside_is_empty(left.row(n), left.row(n), next.row(n));
        touched[n as usize] = is_lost;
        if is_lost {
            left.put(n, next.row(n));
            changed = true;
        }
    }
    changed
}
