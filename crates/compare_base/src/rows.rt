//! What a pair of cases changes, place by place.
use net_base::{List, Loc};

/// The ranks of one walk in the old policy and in the new one, none where it isn't permitted.
#[derive(Clone, Copy, Debug, PartialEq, Eq, PartialOrd, Ord, Hash)]
pub struct Row {
    /// The rank in the old policy, or None where it doesn't permit the walk.
    pub old: Option<u32>,
    /// The rank in the new policy, or None where it doesn't permit the walk.
    pub new: Option<u32>,
}

/// A router, or its session to a peer.
#[derive(Clone, Copy, Debug, PartialEq, Eq, Hash)]
pub struct Place {
    /// The router.
    pub router: Loc,
    /// The peer of its session, or None where the place is the router itself.
    pub peer: Option<Loc>,
}

/// In what a place differs. Where both policies permit a common walk of it: whether walks are lost, gained, or ordered otherwise. Where they
/// have none in common: only the old one permits walks, or only the new one, or each its own.
#[derive(Clone, Copy, Debug, PartialEq, Eq, Hash)]
pub enum Words {
    /// Both policies permit a common walk of the place: whether walks are lost, gained, or ordered otherwise.
    Partly {
        lost: bool,
        gained: bool,
        reordered: bool,
    },
    /// Only the old policy permits walks of the place.
    Unclaimed,
    /// Only the new policy permits walks of the place.
    Claimed,
    /// Both permit walks of the place, and none in common.
    Replaced,
}

/// The places of a pair that differ in the same words and show the same rows, and for each row a walk of one of them.
#[derive(Drop)]
pub struct Kind {
    /// In what the places differ.
    pub words: Words,
    /// The rows that show it.
    pub rows: List<Row>,
    /// The places.
    pub places: List<Place>,
    /// For each row a walk that has it, of one of the places.
    pub walks: List<List<Loc>>,
}

/// What a pair changes: its kinds in order of their first places, and the routers that carry in the old policy alone and in the new one alone.
#[derive(Drop)]
pub struct PairChange {
    /// The kinds, in order of their first places.
    pub kinds: List<Kind>,
    /// The routers that carry in the old policy alone.
    pub lost: List<Loc>,
    /// The routers that carry in the new policy alone.
    pub gained: List<Loc>,
}
