//! The first nodes at each router, with a rank and without one.
ghost use Rattle.std.specs.Prelude.{◌≡◌, is_none, is_some, IfOk, length};
ghost use Rattle.graph_base.specs.Least.{or_else};
ghost use Rattle.case_core.specs.Firsts.{AreFirsts};

use graph_base::{Graph, Node};
use std::alloc::{AllocError, Global};

/// The first node at a router that has a rank, and the first one that has none.
#[derive(Clone, Copy)]
pub struct Firsts {
    /// The number of the first node with a rank, from 0, if there is one.
    pub ranked: Option<u32>,
    /// The number of the first node without a rank, from 0, if there is one.
    pub unranked: Option<u32>,
}

// The first one, or else this number where it is one.
fn first_or(first: Option<u32>, is_one: bool, number: u32) -> Option<u32>
    ensures { result ≡ or_else first is_one number }
{
    if first.is_none() && is_one {
        Some(number)
    } else {
        first
    }
}

// The first ones after one more node, with this number.
fn with_node(firsts: Firsts, node: Node, number: u32) -> Firsts
    ensures { result ≡ record { ranked = or_else firsts.ranked (is_some node.rank) number; unranked = or_else firsts.unranked (is_none node.rank) number } }
{
    Firsts {
        ranked: first_or(firsts.ranked, node.rank.is_some(), number),
        unranked: first_or(firsts.unranked, node.rank.is_none(), number),
    }
}

/// For each of so many routers the first nodes there.
pub fn first_nodes(alloc: Global, routers: usize, graph: &Graph) -> Result<Vec<Firsts>, AllocError>
    ensures { IfOk result (λ table. AreFirsts routers graph.now (length graph.now.nodes) table.items) }
{
    let none = Firsts {
        ranked: None,
        unranked: None,
    };
    let mut table = vec![in alloc; none; routers]?;
    let nodes = graph.nodes();
    for i in 0..nodes.len() {
        let node = nodes[i];
        let place = node.loc.number() as usize;
        if place < table.len() {
            table[place] = with_node(table[place], node, i as u32);
        }
    }
    Ok(table)
}
