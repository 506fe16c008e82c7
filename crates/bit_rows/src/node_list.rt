//! Lists of nodes, most of which are short.
ghost use Rattle.std.specs.Prelude.{◌≡◌, [], ◌∷◌, ◌++◌, IfOk, OnErr, OnOk, length, replicate};

use smallvec::SmallVec;
use std::alloc::{AllocError, Global};
use std::marker::Model;

// As many nodes as lie in the list itself: as many neighbours as most nodes have.
const SHORT: usize = 6;

/// Nodes of a graph by their numbers, in the order in which they were put. A short list takes no memory but its own.
#[derive(Drop)]
pub struct NodeList {
    nodes: SmallVec<u32, SHORT>,
}

impl Model for NodeList {
    ghost use Rattle.std.specs.Prelude.{List, ℕ};

    ghost Value = { List ℕ };

    ghost view = { λ l. l.nodes.items };
}

impl NodeList {
    /// A list with no node.
    pub fn new(alloc: Global) -> NodeList
        ensures { result ≡ [] }
    {
        NodeList {
            nodes: SmallVec::new(alloc),
        }
    }

    /// A list with no node that has room for so many.
    pub fn with_room(alloc: Global, room: usize) -> Result<NodeList, AllocError>
        ensures { IfOk result (λ list. list ≡ []) }
    {
        Ok(NodeList {
            nodes: SmallVec::with_capacity(alloc, room)?,
        })
    }

    /// Puts a node behind the others. After an error the list is as before.
    pub fn push(&mut self, node: u32) -> Result<(), AllocError>
        ensures ok { OnOk result (self.new ≡ self.old ++ node ∷ []) }
        ensures err { OnErr result (self.new ≡ self.old) }
    {
        self.nodes.push(node)?;
        Ok(())
    }

    /// The nodes.
    pub fn as_slice(&self) -> &[u32]
        ensures { result.now ≡ self.now }
    {
        self.nodes.as_slice()
    }
}

/// So many lists with no node.
pub fn empty_lists(alloc: Global, size: usize) -> Result<Vec<NodeList>, AllocError>
    ensures { IfOk result (λ lists. lists.items ≡ replicate size []) }
{
    let mut lists = Vec::with_capacity(alloc, size)?;
    for _ in 0..size {
        lists.push(NodeList::new(alloc))?;
    }
    Ok(lists)
}

/// Lists with no node, each with room for so many.
pub fn lists_with_room(alloc: Global, rooms: &[u32]) -> Result<Vec<NodeList>, AllocError>
    ensures { IfOk result (λ lists. lists.items ≡ replicate (length rooms.now) []) }
{
    let mut lists = Vec::with_capacity(alloc, rooms.len())?;
    for room in rooms {
        lists.push(NodeList::with_room(alloc, *room as usize)?)?;
    }
    Ok(lists)
}
