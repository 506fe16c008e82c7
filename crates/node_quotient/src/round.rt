//! One round of the search for nodes that nothing tells apart.
ghost use Rattle.std.specs.Prelude.{◌≡◌, ◌<◌, ◌≤◌, ℕ, IfOk, length};
ghost use Rattle.graph_base.specs.declared.graph.TheConstants.{MAX_NODES};
ghost use Rattle.node_quotient.specs.Alike.{AreFirst, AreInside, class_in};

use crate::alike::first_alike;
use bit_rows::{NodeList, empty_lists};
use std::alloc::{AllocError, Global};

/// For each node the first one that is alike.
pub fn next_round(alloc: Global, lists: &[NodeList], least: &[u32]) -> Result<Vec<u32>, AllocError>
    requires size { length lists.now ≡ length least.now }
    requires few { length least.now ≤ MAX_NODES }
    requires lists { AreInside lists.now (length least.now) }
    requires classes { (n : ℕ) → n < length least.now → class_in least.now n < length least.now }
    ensures { IfOk result (λ next. AreFirst lists.now least.now next.items) }
{
    let mut founders = empty_lists(alloc, least.len())?;
    let mut next = Vec::new(alloc);
    for node in 0..least.len() {
        let class = least[node] as usize;
        let first = match first_alike(founders[class].as_slice(), lists, least, node as u32) {
            Some(first) => first,
            None => {
                founders[class].push(node as u32)?;
                node as u32
            }
        };
        next.push(first)?;
    }
    Ok(next)
}
