//! Pairs of nodes to which one walk leads.
ghost use Rattle.std.specs.Prelude.{◌≡◌};
ghost use Rattle.std.specs.Hash as fed;
ghost use Rattle.pair_graph.specs.Hashed.{equal_keys, key_of};
ghost use Rattle.pair_graph.specs.Pairs.{joined as joined_of};

use net_base::Loc;
use std::hash::{Hash, Hasher};

/// The nodes in which a walk ends in two graphs, and where it ends. One of the nodes may be missing.
#[derive(Clone, Copy, Debug, PartialEq, Eq)]
pub struct NodePair {
    /// The location in which the walk ends.
    pub place: Loc,
    /// The number, from 0, of its node in the first graph, if it leads to one.
    pub first: Option<u32>,
    /// The number, from 0, of its node in the second graph, if it leads to one.
    pub second: Option<u32>,
}

impl NodePair {
    // Both nodes in one number, which is hashed at once. The greatest of 32 bits stands for one that is missing.
    fn key(&self) -> u64
        ensures { result ≡ key_of self.now }
    {
        let first = self.first.unwrap_or(u32::MAX);
        let second = self.second.unwrap_or(u32::MAX);
        first as u64 * 4_294_967_296 + second as u64
    }
}

impl Hash for NodePair {
    ghost hash_input = { λ x. fed.u64 (key_of x) };

    ghost respects_eq = { equal_keys };

    fn hash<H: Hasher>(&self, state: &mut H) {
        state.write_u64(self.key());
    }
}

/// The pair of two nodes at a location, unless both are missing.
pub(crate) fn joined(place: Loc, first: Option<u32>, second: Option<u32>) -> Option<NodePair>
    ensures { result ≡ joined_of place first second }
{
    if first.is_none() && second.is_none() {
        return None;
    }
    Some(NodePair {
        place,
        first,
        second,
    })
}
