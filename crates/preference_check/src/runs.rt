//! The nodes of each router in ascending order of number.
ghost use Rattle.std.specs.Prelude.{◌≡◌, ◌<◌, ℕ, [], IfOk, length, replicate, slice_index_or};
ghost use Rattle.graph_base.specs.Preferences.{number_in};
ghost use Rattle.preference_check.specs.Runs.{IsAscending, has_node, is_node_at};

use graph_base::Graph;
use input_output::NoMemory;
use net_base::{List, Net};
use std::alloc::{AllocError, Global};

/// A node with its preference number.
#[derive(Clone, Copy)]
pub struct Numbered {
    /// Its preference number.
    pub number: u32,
    /// The number of the node, from 0.
    pub node: u32,
}

// A node with its number.
fn with_number(numbers: &[u32], node: u32) -> Numbered
    requires { node < length numbers.now }
    ensures { result ≡ record { number = number_in numbers.now node; node = node } }
{
    Numbered {
        number: numbers[node as usize],
        node,
    }
}

// So many lists without nodes.
fn no_nodes(alloc: Global, size: usize) -> Result<Vec<List<Numbered>>, AllocError>
    ensures { IfOk result (λ lists. lists.items ≡ replicate size []) }
{
    let mut lists = Vec::with_capacity(alloc, size)?;
    for _ in 0..size {
        lists.push(List::new(alloc))?;
    }
    Ok(lists)
}

/// The nodes of each router, with their numbers.
pub fn nodes_of_routers(
    alloc: Global,
    net: &Net,
    graph: &Graph,
    numbers: &[u32],
) -> Result<Vec<List<Numbered>>, NoMemory>
    requires { length numbers.now ≡ length graph.now.nodes }
    ensures size { IfOk result (λ all. length all.items ≡ length net.now.routers) }
    ensures nodes { IfOk result (λ all. (l n number : ℕ) → l < length net.now.routers → has_node (slice_index_or all.items l []) n number ≡ is_node_at graph.now numbers.now l n number) }
{
    let mut all = no_nodes(alloc, net.routers().len())?;
    for node in 0..graph.nodes().len() as u32 {
        let at = graph.location(node).number() as usize;
        if at < all.len() {
            all[at].push(with_number(numbers, node))?;
        }
    }
    Ok(all)
}

/// These nodes in ascending order of number.
pub fn in_order(nodes: List<Numbered>) -> Vec<Numbered>
    ensures nodes { (n number : ℕ) → has_node result.items n number ≡ has_node nodes n number }
    ensures order { IsAscending result.items }
{
    let mut run = nodes.into_vec();
    run.sort_unstable_by_key(|entry| entry.number);
    run
}
