//! The configuration of a stage between two others of the same routers, and the law that it is one: lines of both, and the starts of the
//! first.
//!
//! A stage has the lines of two configurations, and the starts of one of them: a *start* is an `originate` line, or an import in the
//! block of a peer. So a router that runs it sends and takes what either of the two sends and takes, and begins no route but those of
//! its starts. Whatever the two have in them, that is so for every network, prefix and router (`StagesAreMade`).
//!
//! - `specs/Alike`: two configurations of the same routers, with the same neighbours (`AreAlike`). Of others no stage is made.
//! - `specs/Joined`: the configuration that is made (`joined`), block by block.
//! - `specs/Laws`: it keeps the rules of configurations, and it is a stage.
//!
//! The cells say which classes of the two come together. Where the starts are those of the new configuration, the two change places,
//! and so do the sides of the cells.
//!
//! `between` alone needs it.
//!
//! It knows nothing of when two configurations may be mixed, of evidence and of texts.
#![tactic(auto)]

mod join;
mod laws;
mod own;

pub use join::joined;
pub use laws::{cells_turn, stages_are_made};
