//! Trees of nodes: each node points to itself or to a lesser one, and the root stands for its class.
ghost use Rattle.std.specs.Prelude.{◌≡◌, ◌<◌, ◌≤◌, ◌==◌, ℕ, IfOk, length, sum, if◌then◌else◌};
ghost use Rattle.node_classes.specs.Forest.{parent, IsForest, leader};
ghost use Rattle.node_classes.specs.Classes.{class_in};

use std::alloc::{AllocError, Global};

/// So many trees of one node each.
pub(crate) fn seeds(alloc: Global, count: u32) -> Result<Vec<u32>, AllocError>
    ensures roots { IfOk result (λ up. (x : ℕ) → parent up.items x ≡ x) }
    ensures len { IfOk result (λ up. length up.items ≡ count) }
{
    let mut up = Vec::new(alloc);
    for node in 0..count {
        up.push(node)?;
    }
    Ok(up)
}

/// The root of a node's tree. Each node on the way is made to point to its parent's parent.
pub(crate) fn root_of(up: &mut Vec<u32>, node: u32) -> u32
    requires within { node < length up.old.items }
    requires forest { IsForest up.old.items }
    ensures root { result ≡ leader up.old.items node }
    ensures same { (x : ℕ) → leader up.new.items x ≡ leader up.old.items x }
    ensures forest { IsForest up.new.items }
    ensures len { length up.new.items ≡ length up.old.items }
    ensures sum { sum up.new.items ≤ sum up.old.items }
{
    let mut at = node;
    'climb: while up[at as usize] != at {
        let next = up[up[at as usize] as usize];
        up[at as usize] = next;
        at = next;
    }
    at
}

/// Joins the trees of two roots: the greater one points to the lesser.
pub(crate) fn join(up: &mut Vec<u32>, low: u32, high: u32)
    requires low { parent up.old.items low ≡ low }
    requires high { parent up.old.items high ≡ high }
    requires order { low < high }
    requires within { high < length up.old.items }
    requires forest { IsForest up.old.items }
    ensures trees { (x : ℕ) → leader up.new.items x ≡ (if leader up.old.items x == high then low else leader up.old.items x) }
    ensures forest { IsForest up.new.items }
    ensures len { length up.new.items ≡ length up.old.items }
    ensures sum { sum up.new.items < sum up.old.items }
{
    up[high as usize] = low;
}

/// The root of each node's tree.
pub(crate) fn roots(alloc: Global, up: &mut Vec<u32>, count: u32) -> Result<Vec<u32>, AllocError>
    requires forest { IsForest up.old.items }
    requires len { length up.old.items ≡ count }
    ensures each { IfOk result (λ roots. (x : ℕ) → class_in roots.items x ≡ leader up.old.items x) }
    ensures count { IfOk result (λ roots. length roots.items ≡ count) }
{
    let mut all = Vec::new(alloc);
    for node in 0..count {
        all.push(root_of(up, node))?;
    }
    Ok(all)
}
