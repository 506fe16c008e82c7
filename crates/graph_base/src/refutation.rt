//! Lines that show that no preference numbers meet the rules on a graph.
use net_base::{List, Loc};

/// Why one node may not stand at least as high as another.
#[derive(Clone, Copy, Debug, PartialEq, Eq)]
pub enum Why {
    /// The location is claimed, and the rank of the first is greater.
    RankWorse,
    /// The second steps to this router, and the first doesn't.
    NoStep(Loc),
    /// Both step to this router, and the first's node there may not stand as high as the second's.
    StepWorse(Loc),
    /// The second steps to this router; the first can be reached from this node there, which may not stand as
    /// high as the second's node there.
    LoopWorse(Loc, u32),
    /// The second is heard by this peer, and the first isn't, or with a greater rank.
    ListenerWorse(Loc),
}

/// The first node may not stand at least as high as the second: the round in which that was found, and why.
#[derive(Clone, Copy, Debug, PartialEq, Eq)]
pub struct Removed {
    /// The number, from 0, of the node that may not stand as high.
    pub better: u32,
    /// The number, from 0, of the node over which it may not stand, at the same location.
    pub worse: u32,
    /// The round, from 1, in which that was found. What its reason rests on was found in an earlier one.
    pub round: u64,
    /// The reason.
    pub why: Why,
}

/// Two nodes at one location of which neither may stand at least as high as the other, with the lines that
/// show it. The first has the lesser number, or is the second.
#[derive(Drop)]
pub struct Refutation {
    /// Where both nodes stand.
    pub router: Loc,
    /// The number of the first node, from 0.
    pub first: u32,
    /// The number of the second node, from 0, no less than that of the first.
    pub second: u32,
    /// The lines that show it, in ascending order of round.
    pub lines: List<Removed>,
}
