//! What rest is for the machine of events, and the laws by which routers settle: which router can settle for good while others haven't,
//! the order in which all do, what can be held after rounds of deliveries, and that messages end; no code.
//!
//! There are three steps:
//!
//! 1. *Some router can always settle.* A settlement gives routes to some locations; the other routers are open. As long as settled routers
//!    give an open one a route, some open router is secure: what a settled neighbour gives it comes before all that its open neighbours can
//!    come to give it, by number or, at the same number, by length (`specs/Partial`, `proofs/Secure`). That is shown where ties are free
//!    and routes have any size (`specs/Sizes`, `proofs/Next`); `tie_law` has the law. So the routers of a graph settle one
//!    after another, and what they settle to is the outcome. This asks for the rules of evidence, and knows abstract networks alone.
//! 2. *Rounds forget.* A round delivers at least what waits when it begins. After it each speaker has heard only what was said since, so what
//!    can be held after so many rounds is what can be chosen, so many times over, of what can be said (`specs/Holding`). A route grows with
//!    each hop. So where the routers have an order in which each must then choose what an outcome has (`specs/Orders`), they come to hold it
//!    one after another; in the end no route changes, and one more round leaves no message (`specs/Rounds`). This knows speakers alone.
//! 3. *A configured network is such.* What its routers say and take in a world is what the graph of the prefix's case does over what lives
//!    (`proofs/OfGraph`), so the order of the first step is one for the second (`proofs/Ordered`).
//!
//! The second and the third step are for networks whose routers run several configurations: `rollout_rest` and `rollout_mixtures` go on from
//! them. That a network under one configuration comes to rest, as `specs/Rest` says, is a case of the law of networks in motion: `event_rest`
//! has it. Of this crate it takes that rest is reached where messages end (`rests_where_messages_end`).
//!
//! Compiling doesn't need it.
//!
//! It knows nothing of the compiler and texts.
#![tactic(auto)]

mod rounds;
mod secure_routers;

pub use rounds::{messages_end, rounds_remember};
pub use secure_routers::{
    firm_routes_are_chosen, secure_routers_settle, settled_routes_are_the_outcome,
    some_router_is_secure,
};
