//! The evidence of a configuration that may take over from an old one while the network runs, where what stays keeps its tags and its numbers;
//! and that it passes.
//!
//! A network adds a prefix, or swaps two exits, and most of its policy stays. So a compiled case keeps the tags and the numbers that an old
//! case has in the evidence of the old configuration, where it stays as that (`specs/Staying`): its class shares prefixes with that case's class
//! and with no other old class that has lines, the two graphs are the same, and the old numbers are the compiled ones, each raised by as much.
//! Each other case is renewed (`evidence_renewal`): its tags stand nowhere in the old configuration, and its preferences are above. So the
//! lines of what stays are the same in both configurations, but for `originate` lines of prefixes that come and go.
//!
//! Prefixes may come to a class that stays, if no old class with lines had them: there is nothing to be apart from. They may leave it. Where
//! they go to several classes that are all as it was, one of these has to have its tags: the last one, as of two statements that say the
//! same the more general one stands behind.
//!
//! Rules of evidence compare numbers only with one another, so what is raised passes. Tags are judged when they are chosen
//! (`tag_fault` of `evidence_check`), and then the old configuration and the new one are, as stages between them are (`stage_check`): of each two
//! classes that share prefixes, both have the same lines about these, or the tags are apart and the preferences above. If that isn't so, this is
//! told. Evidence of another configuration comes to it. That the old configuration's own never does isn't proved.
//!
//! `renew` and `renewal` alone need it.
//!
//! It knows nothing of texts, or of how stages are made.
#![tactic(auto)]

mod alike;
mod fault;
mod laws;
mod reuse;
mod staying;

pub use fault::ReuseFault;
pub use laws::{reused_evidence_passes, reuses_are_one, what_stays_is_kept};
pub use reuse::{Reuse, reused};
