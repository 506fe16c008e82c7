//! Nodes in groups.
ghost use Rattle.std.specs.Prelude.{◌≡◌, ◌<◌, ◌≤◌, All, IfOk, length};
ghost use Rattle.graph_base.specs.declared.graph.TheConstants.{MAX_NODES};
ghost use Rattle.node_quotient.specs.Splits.{AreGroups};

use bit_rows::{NodeList, empty_lists};
use std::alloc::{AllocError, Global};

/// For each number below a bound the nodes that have it as their key, in ascending order.
pub fn grouped(alloc: Global, keys: &[u32], bound: usize) -> Result<Vec<NodeList>, AllocError>
    requires few { length keys.now ≤ MAX_NODES }
    requires keys { All (λ k. k < bound) keys.now }
    ensures size { IfOk result (λ groups. length groups.items ≡ bound) }
    ensures groups { IfOk result (λ groups. AreGroups (length keys.now) keys.now groups.items) }
{
    let mut groups = empty_lists(alloc, bound)?;
    for node in 0..keys.len() {
        groups[keys[node] as usize].push(node as u32)?;
    }
    Ok(groups)
}
