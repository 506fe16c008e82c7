//! The nodes of a graph, one location after another.
ghost use Rattle.std.specs.Prelude.{◌≡◌, ◌<◌, ℕ, IfOk, length, nat_lt};
ghost use Rattle.reach_prune.specs.Searches.{is_among};
ghost use Rattle.state_simulation.specs.Looked.{IsOrder, is_keyed};

use graph_base::Graph;
use net_base::Loc;
use std::alloc::{AllocError, Global};

/// The nodes by location, and there by rank, so that targets with one mask follow each other.
pub fn by_location(alloc: Global, graph: &Graph) -> Result<Vec<u32>, AllocError>
    ensures { IfOk result (λ order. IsOrder graph.now order.items) }
{
    let mut keyed = keyed_nodes(alloc, graph)?;
    keyed.sort_unstable();
    let order = nodes_of(alloc, &keyed)?;
    Ok(order)
}

// The nodes of a list in which each stands with its location and rank.
fn nodes_of(alloc: Global, keyed: &[(Loc, Option<u32>, u32)]) -> Result<Vec<u32>, AllocError>
    ensures { IfOk result (λ order. (n : ℕ) → is_among order.items n ≡ is_keyed keyed.now n) }
{
    let mut order = Vec::new(alloc);
    for (_, _, node) in keyed {
        order.push(*node)?;
    }
    Ok(order)
}

// Each node's location and rank, and the node.
fn keyed_nodes(alloc: Global, graph: &Graph) -> Result<Vec<(Loc, Option<u32>, u32)>, AllocError>
    ensures { IfOk result (λ keyed. (n : ℕ) → is_keyed keyed.items n ≡ nat_lt n (length graph.now.nodes)) }
{
    let mut keyed = Vec::new(alloc);
    for node in 0..graph.nodes().len() as u32 {
        keyed.push((graph.location(node), graph.rank(node), node))?;
    }
    Ok(keyed)
}
