//! What a pair of cases changes.
ghost use Rattle.std.specs.Prelude.{◌≡◌, ◌≤◌, IfOk, IsErrOf};
ghost use Rattle.net_base.specs.Prefixes.{PlainPrefix};
ghost use Rattle.policy_base.specs.Policies.{PlainPolicy};
ghost use Rattle.pair_graph.specs.Room.{HasPairSteps, PassesRoom};
ghost use Rattle.compare_base.specs.Cases.{pair_for};
ghost use Rattle.pair_changes.specs.Changes.{IsPairChange};
ghost use Rattle.pair_changes.specs.Shown.{ShowsWalks};

use crate::carriers::{carriers_alone, routers_of};
use crate::kinds::kinds_of;
use crate::places::places_of;
use crate::walks::shown_kinds;
use compare_base::{CasePair, PairChange};
use graph_base::Graph;
use net_base::Net;
use pair_graph::{PairFault, pair_graph};
use place_rows::PlaceRows;
use std::alloc::Global;

/// What a pair of cases changes, and how many steps the graph of its pairs of nodes has.
#[derive(Drop)]
pub struct ChangedPair {
    /// What changes.
    pub change: PairChange,
    /// How many steps the graph of the pairs of nodes has, at most as many as there was room for.
    pub used: u32,
}

/// What two policies change for the prefixes with these cases, of which the two graphs show the walks. The graph of the pairs of their nodes
/// may have at most `room` steps.
pub fn pair_change(
    alloc: Global,
    net: &Net,
    cases: &CasePair,
    old: &Graph,
    new: &Graph,
    room: u32,
) -> Result<ChangedPair, PairFault>
    ensures change { (before after : PlainPolicy) (p : PlainPrefix) → pair_for before after p ≡ cases.now → ShowsWalks net.now before p old.now
        → ShowsWalks net.now after p new.now → IfOk result (λ given. IsPairChange net.now before after p given.change) }
    ensures used { IfOk result (λ given. HasPairSteps old.now new.now given.used) }
    ensures room { IfOk result (λ given. given.used ≤ room) }
    ensures many { IsErrOf result PairFault.TooManySteps → PassesRoom old.now new.now room }
{
    let both = pair_graph(alloc, old, new, room)?;
    let table = PlaceRows::new(alloc, net, old, new, &both)?;
    let places = places_of(alloc, net, cases)?;
    let bare = kinds_of(alloc, &table, places.as_slice())?;
    let kinds = shown_kinds(alloc, &both, &table, bare.as_slice())?;
    let before = routers_of(net, old);
    let after = routers_of(net, new);
    let lost = carriers_alone(alloc, net, cases, &before, &after)?;
    let gained = carriers_alone(alloc, net, cases, &after, &before)?;
    let used = both.graph.steps().len() as u32;
    let change = PairChange {
        kinds,
        lost,
        gained,
    };
    Ok(ChangedPair { change, used })
}
