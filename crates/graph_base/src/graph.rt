//! Graphs of cases.
ghost use Rattle.std.specs.Prelude.{◌≡◌, ◌<◌, IfOk, length};

use net_base::{List, Loc, Tag};
use std::alloc::{AllocError, Global};
use std::marker::Model;

/// Nodes of a graph as it lies in memory: their numbers have 32 bits, and some are left over.
pub const MAX_NODES: usize = 4_294_967_000;

/// A location with what is known of the walk that led there from an origin.
#[derive(Clone, Copy, Debug, PartialEq, Eq)]
pub struct Node {
    /// The location to which the walk has come.
    pub loc: Loc,
    /// Whether the node stands at a peer that hears.
    pub listener: bool,
    /// The rank, from 1, of the walks that end here, where they have one.
    pub rank: Option<u32>,
}

/// The graph of a case. Nodes are counted from 0; a step goes the way a route travels.
#[derive(Drop)]
pub struct Graph {
    nodes: List<Node>,
    starts: List<u32>,
    steps: List<(u32, u32)>,
}

impl Model for Graph {
    ghost use Rattle.graph_base.specs.Graphs.{PlainGraph, IsGraph};

    ghost Value = { PlainGraph };

    ghost view = { λ g. record { nodes = g.nodes; starts = g.starts; steps = g.steps } };

    ghost invariant = { λ g. IsGraph (record { nodes = g.nodes; starts = g.starts; steps = g.steps }) };
}

impl Graph {
    ghost use Rattle.graph_base.specs.Graphs.{IsGraph};
    ghost use Rattle.graph_base.specs.Runs.{is_listener, place_of, rank_at};

    /// The graph of these nodes, starts and steps.
    pub fn new(nodes: List<Node>, starts: List<u32>, steps: List<(u32, u32)>) -> Graph
        requires { IsGraph (record { nodes = nodes; starts = starts; steps = steps }) }
        ensures { result ≡ record { nodes = nodes; starts = starts; steps = steps } }
    {
        Graph {
            nodes,
            starts,
            steps,
        }
    }

    /// The nodes.
    pub fn nodes(&self) -> &[Node]
        ensures nodes { result.now ≡ self.now.nodes }
        ensures rules { IsGraph self.now }
    {
        self.nodes.as_slice()
    }

    /// The nodes at which a walk begins, at its origin.
    pub fn starts(&self) -> &[u32]
        ensures starts { result.now ≡ self.now.starts }
        ensures rules { IsGraph self.now }
    {
        self.starts.as_slice()
    }

    /// The steps, each from one node to another.
    pub fn steps(&self) -> &[(u32, u32)]
        ensures steps { result.now ≡ self.now.steps }
        ensures rules { IsGraph self.now }
    {
        self.steps.as_slice()
    }

    /// The location of a node.
    pub fn location(&self, node: u32) -> Loc
        requires { node < length self.now.nodes }
        ensures { result ≡ place_of self.now node }
    {
        self.nodes.as_slice()[node as usize].loc
    }

    /// Whether a node stands at a peer that hears.
    pub fn hears(&self, node: u32) -> bool
        requires { node < length self.now.nodes }
        ensures { result ≡ is_listener self.now node }
    {
        self.nodes.as_slice()[node as usize].listener
    }

    /// The rank of a node, if it has one.
    pub fn rank(&self, node: u32) -> Option<u32>
        requires { node < length self.now.nodes }
        ensures { result ≡ rank_at self.now node }
    {
        self.nodes.as_slice()[node as usize].rank
    }

    /// A copy of the graph.
    pub fn copy(&self, alloc: Global) -> Result<Graph, AllocError>
        ensures { IfOk result (λ copy. copy ≡ self.now) }
    {
        Ok(Graph {
            nodes: self.nodes.copy(alloc)?,
            starts: self.starts.copy(alloc)?,
            steps: self.steps.copy(alloc)?,
        })
    }
}

/// A preference number for each node of a graph.
#[derive(Drop)]
pub struct Prefs {
    /// For each node, in order, its number: at a router the local preference of its routes (RFC 4271, 5.1.5).
    pub of: List<u32>,
}

/// The tags of each graph's nodes.
#[derive(Drop)]
pub struct Tags {
    /// For each graph a list with the tag of each node.
    pub of: List<List<Tag>>,
}
