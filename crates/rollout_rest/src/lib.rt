//! The laws of rest while routers load other configurations: where all routers read the routes of one configuration as it
//! does, the network comes to rest where that one does, whatever was run before; and what holds of a rollout from its first
//! load to its last. There is no code.
//!
//! | Law | It says | It needs |
//! |---|---|---|
//! | `readers_come_to_rest` | from the moment on when all routers read the routes of one part as it does, and nobody loads any more, so many rounds of deliveries end all messages. Then the network is at rest as that part's network is, whatever was run before | evidence that passes for that part |
//! | `rollouts_are_right` | a rollout from its first load to its last: nothing forbidden at any moment, nothing changes until the first load of stage 2, rest in the new one's outcome once all run stage 2, nothing changes by the last loads; and back | evidence that passes for both, and `AreStages` |
//!
//! Why the first: an order in which the routers of a part's own network settle is there for every world (`rest_law`). Over
//! settled routers nothing comes to anybody but routes of the part's tags, since those start at what is settled, and lines that
//! read as the part's do make more such routes of them (`proofs/Readers`). So what else is still on its way doesn't matter: it
//! came from nobody who holds it for good. `proofs/Resting` shows the same of a world in which no message waits, for any kind
//! of routes: a route is made of one that is shorter.
//!
//! `proofs/Mixed` shows that the routers of any mixture choose the first of what they take, and hold paths without loops;
//! `proofs/Settled` that a quiet world of such readers is at rest; `proofs/Rollouts` puts the parts of a rollout together.
//!
//! Compiling doesn't need it.
//!
//! It knows nothing of the compiler, or of how a stage is made.
#![tactic(auto)]

ghost use Rattle.rollout_rest.specs.Laws.{ReadersComeToRest, RestingReadersAreAtRest, RestingReadersAreSettled, RestingReadersHoldItsTags};
ghost use Rattle.rollout_rest.specs.Rollouts.{RolloutsAreRight, StagesLeadBack};

/// Routers that read the routes of one part as it does come to rest where its own network does, and each route has one of its tags then.
pub fn readers_come_to_rest()
    ensures tags { RestingReadersHoldItsTags }
    ensures settled { RestingReadersAreSettled }
    ensures rest { RestingReadersAreAtRest }
    ensures comes { ReadersComeToRest }
{}

/// Where the evidence of two configurations passes and two stages lie between them: what is held and heard one of the two policies lets
/// be, at every moment and whatever is loaded when; before the first load of stage 2 the network is the old one, and once all run stage 2
/// it comes to rest in the outcome of the new one, which no later load changes.
pub fn rollouts_are_right()
    ensures right { RolloutsAreRight }
    ensures back { StagesLeadBack }
{}
