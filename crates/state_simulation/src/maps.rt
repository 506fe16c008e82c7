//! A graph's nodes as they are looked up.
ghost use Rattle.std.specs.Prelude.{◌≡◌, ◌<◌, ◌&&◌, ◌==◌, All, ℕ, IfOk, length, nat_lt};
ghost use Rattle.graph_base.specs.Runs.{has_step, place_of};
ghost use Rattle.reach_prune.specs.Searches.{is_listed};
ghost use Rattle.relation_law.specs.Rounds.{is_in};
ghost use Rattle.state_simulation.specs.Looked.{AreMaps, IsOrder};

use crate::grouping::grouped;
use crate::ordering::by_location;
use bit_rows::NodeList;
use graph_base::Graph;
use input_output::NoMemory;
use reach_prune::{Way, neighbours};
use std::alloc::{AllocError, Global};

/// A graph, with the nodes to which each node steps, those that step to it, and those of each location.
#[derive(Drop)]
pub struct Maps<'a> {
    graph: &'a Graph,
    successors: Vec<NodeList>,
    before: Vec<NodeList>,
    peers: Vec<NodeList>,
    order: Vec<u32>,
    ghost are: { AreMaps graph.now successors.items before.items peers.items },
    ghost ordered: { IsOrder graph.now order.items },
}

impl<'a> Maps<'a> {
    ghost use Rattle.std.specs.Prelude.{IsTrue};
    ghost use Rattle.reach_prune.specs.Searches.{is_among};

    /// The maps of a graph.
    pub fn new(alloc: Global, graph: &'a Graph) -> Result<Maps<'a>, NoMemory>
        ensures { IfOk result (λ maps. maps.graph.now ≡ graph.now) }
    {
        Ok(Maps {
            graph,
            order: by_location(alloc, graph)?,
            successors: neighbours(alloc, graph, Way::Forward)?,
            before: neighbours(alloc, graph, Way::Backward)?,
            peers: nodes_by_place(alloc, graph)?,
        })
    }

    /// The graph.
    pub fn graph(&self) -> &Graph
        ensures { result.now ≡ self.now.graph.now }
    {
        self.graph
    }

    /// The nodes to which a node steps.
    pub fn successors(&self, node: u32) -> &[u32]
        requires { node < length self.now.graph.now.nodes }
        ensures within { All (λ n. n < length self.now.graph.now.nodes) result.now }
        ensures members { (n : ℕ) → is_among result.now n ≡ has_step self.now.graph.now node n }
    {
        self.successors[node as usize].as_slice()
    }

    /// The nodes that step to a node.
    pub fn before(&self, node: u32) -> &[u32]
        requires { node < length self.now.graph.now.nodes }
        ensures within { All (λ n. n < length self.now.graph.now.nodes) result.now }
        ensures members { (n : ℕ) → is_among result.now n ≡ has_step self.now.graph.now n node }
    {
        self.before[node as usize].as_slice()
    }

    /// All nodes, by location.
    pub fn by_location(&self) -> &[u32]
        ensures within { All (λ n. n < length self.now.graph.now.nodes) result.now }
        ensures each { (n : ℕ) → n < length self.now.graph.now.nodes → IsTrue (is_among result.now n) }
    {
        self.order.as_slice()
    }

    /// The nodes that stand where a node stands, the node among them.
    pub fn peers(&self, node: u32) -> &[u32]
        requires { node < length self.now.graph.now.nodes }
        ensures within { All (λ n. n < length self.now.graph.now.nodes) result.now }
        ensures members { (n : ℕ) → n < length self.now.graph.now.nodes → is_among result.now n ≡ (place_of self.now.graph.now n == place_of self.now.graph.now node) }
    {
        let at = self.graph.location(node).number() as usize;
        self.peers[at].as_slice()
    }
}

/// One more than the greatest location of a node.
pub fn location_count(graph: &Graph) -> u32
    ensures { (n : ℕ) → n < length graph.now.nodes → place_of graph.now n < result }
{
    let mut count = 0;
    for node in 0..graph.nodes().len() as u32 {
        let at = graph.location(node).number() as u32;
        if count <= at {
            count = at + 1;
        }
    }
    count
}

// The nodes of each location.
fn nodes_by_place(alloc: Global, graph: &Graph) -> Result<Vec<NodeList>, AllocError>
    ensures located { IfOk result (λ peers. (n : ℕ) → n < length graph.now.nodes → place_of graph.now n < length peers.items) }
    ensures placed { IfOk result (λ peers. (p n : ℕ) → is_listed peers.items p n ≡ (nat_lt n (length graph.now.nodes) && place_of graph.now n == p)) }
{
    let placed = placed_nodes(alloc, graph)?;
    let peers = grouped(alloc, location_count(graph) as usize, &placed)?;
    Ok(peers)
}

// Each node's location and the node.
fn placed_nodes(alloc: Global, graph: &Graph) -> Result<Vec<(u32, u32)>, AllocError>
    ensures { IfOk result (λ placed. (p n : ℕ) → is_in placed.items p n ≡ (nat_lt n (length graph.now.nodes) && place_of graph.now n == p)) }
{
    let mut placed = Vec::new(alloc);
    for node in 0..graph.nodes().len() as u32 {
        placed.push((graph.location(node).number() as u32, node))?;
    }
    Ok(placed)
}
