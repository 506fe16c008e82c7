//! Scenarios of failures, and what they leave of a network; and an outcome together with what it is an outcome of: what
//! neighbours give and offer in it by the lines of a configuration, and whether it is stable.
//!
//! A `Scenario` is a prefix with what fails: dead locations, dead links, and sessions in which a peer is silent. Its set of
//! dead locations is read as the list of its members (`failures_of`). A silent peer announces nothing, yet it still hears
//! what it is offered. `Survivors` has the same by location and by link, as sets of fixed size, so that a question takes no
//! memory and doesn't go through the lists.
//!
//! An `Outcome` has an entry for each router: a route or none. A `Situation` puts it beside its network, policy,
//! configuration and scenario, and finds the class and the origins of the prefix once. `given` says what a neighbour gives
//! a router, `offered` what a router sends a peer.
//!
//! `is_stable` says whether no router would choose again (RFC 4271, 9.1.1 and 9.1.2). It looks at each link once: `choices`
//! notes the routers that are given the very route that they hold, and those that are given a higher preference. Ties are
//! free. An outcome that hasn't exactly one entry for each router isn't stable.
//!
//! Compiling doesn't need it.
//!
//! It knows nothing of graphs and evidence.
#![tactic(auto)]

mod choice;
mod gifts;
mod links;
mod offers;
mod origins;
mod outcome;
mod scenario;
mod situation;
mod stable;
mod survivors;

pub use choice::Choices;
pub use gifts::Imported;
pub use links::LinkSet;
pub use origins::origins_at;
pub use outcome::Outcome;
pub use scenario::{Scenario, survives};
pub use situation::Situation;
pub use stable::is_stable;
pub use survivors::Survivors;
