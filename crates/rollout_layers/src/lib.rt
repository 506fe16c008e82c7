//! The law that mixtures of the lines of two configurations come to rest in two layers, each an outcome of its own configuration; no code.
//!
//! Of one prefix, over the abstract networks of `routing_law`. `specs/Mixtures` says what a network does some of whose routers
//! have the lines of an old configuration, some those of a new one, and some both; a router has *flipped* when it originates,
//! and takes announcements, by the new one. What two configurations must keep for it is `ArePaired` of `specs/Layers`: each has
//! tags of its own, and every preference of the new one is above every one of the old one.
//!
//! | Law | It says |
//! |---|---|
//! | `mixtures_are_layered` | in a stable outcome of a mixture the new routes alone are a stable outcome of the new lines, where routers that take no part are dead; the others are one of the old lines, where besides each router with a new route is dead. The other way round two such outcomes are together stable |
//! | `mixtures_have_outcomes` | whatever fails, a mixture whose sides are written of graphs with lawful numbers has exactly one outcome with ties broken |
//!
//! `proofs/Layer` shows of one layer that its routes alone are stable, where its lines are what its routers say and take;
//! `proofs/New` and `proofs/Old` that this is so of each side; `proofs/Beside` and `proofs/Joined` the way back; `proofs/Once` that the
//! settled outcome is one.
//!
//! Compiling doesn't need it.
//!
//! It knows nothing of anything but abstract networks.
#![tactic(auto)]

ghost use Rattle.rollout_layers.specs.Graphs.{MixturesHaveOutcomes, MixturesSettleOnce, WrittenLinesAreSides};
ghost use Rattle.rollout_layers.specs.Layers.{LayersAreSettled, LayersAreStable, NewLayerIsSettled, NewLayerIsStable, OldLayerIsSettled, OldLayerIsStable};

/// In a stable outcome of a mixture the new routes are a stable outcome of the new lines, where the routers that don't take part are dead,
/// and the other routes one of the old lines, where besides all routers with a new route are dead. Two such outcomes are together stable in the mixture.
pub fn mixtures_are_layered()
    ensures new { NewLayerIsStable }
    ensures old { OldLayerIsStable }
    ensures together { LayersAreStable }
    ensures new_settled { NewLayerIsSettled }
    ensures old_settled { OldLayerIsSettled }
    ensures together_settled { LayersAreSettled }
{}

/// Lines that are written of a graph are a side. Whatever fails, a mixture of two sides whose numbers meet the rules has exactly one
/// outcome with ties broken.
pub fn mixtures_have_outcomes()
    ensures sides { WrittenLinesAreSides }
    ensures outcomes { MixturesHaveOutcomes }
    ensures once { MixturesSettleOnce }
{}
