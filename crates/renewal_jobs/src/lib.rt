//! The job of `renew` and `renewal`: what is compiled from a policy, written so that it may take over from an old
//! configuration while the network runs, or its evidence; and the lines that nothing may.
//!
//! `renew` writes the configuration and `renewal` the evidence for it. Both compile the policy, and give what is compiled tags that stand
//! nowhere in the old configuration, and preferences above all of its own (`evidence_renewal`). With the evidence of the old configuration
//! what stays keeps its tags and its preferences (`evidence_reuse`). What the two write goes together: `check` says that it holds.
//!
//! The texts are judged in the order in which they are named. Then the policy may be refused, as by `compile`; and where it isn't, a preference
//! may pass 4,294,967,295: then `refused 10 preferences-run-out` names the old one above which there are too few. Where with what would stay
//! nothing could take over, `refused 11 other-evidence` says so. Evidence of another configuration comes to that; that the old
//! configuration's own never does isn't proved.
//!
//! The old configuration may be of any network, and nothing says that it is right: its tags, its preferences and its classes alone matter, and
//! its lines where there is evidence.
//!
//! `renew` and `renewal` alone need it.
//!
//! It knows nothing of words, names, sinks or stages.
#![tactic(auto)]

mod lines;
mod renew;
mod reuse;

pub use lines::{other_line, run_out_line};
pub use renew::renewal_texts;
pub use reuse::reuse_texts;
