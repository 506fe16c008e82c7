//! What a change of policy is made of: what two policies say of the walks of a prefix, when they say the same, and the values
//! in which it is handed on.
//!
//! Two policies over one network are compared prefix by prefix. `specs/Ranks` says what is compared: for each walk of the network the
//! rank that either policy gives it for the prefix, none where the policy doesn't permit it. Two policies say the same of a prefix where
//! they have the same origins, permit the same walks, and order the walks of each source alike (`IsAlike`). The ranks themselves may be
//! other numbers: an alternative that nothing meets can be taken out.
//!
//! What a policy says of a prefix depends on the statement that governs it and on its origins alone (`specs/Cases`). So prefixes with the
//! same two of these in either policy are one pair of cases (`pairs`), and each pair is looked at once. At each place of a pair, a router
//! or its session to a peer, the pairs of ranks of its walks are its rows (`rows`), and only they are told.
//!
//! There is no code here but these types, and nothing is proved but when two cases are one (`proofs/SameCases`) and what order numbers have
//! of which there may be none (`proofs/Less`). So the crates that find pairs, find rows and write them rest on one another's definitions and
//! not on one another.
//!
//! Only the order of ranks counts. An alternative that nothing meets can be taken out, and all later ranks become less by
//! one, yet nothing has changed for anybody. The claim asks no more of a policy: whether a path is allowed, who is claimed,
//! and which of two paths of one source ranks first. A source is a router, or its session to a peer. Walks that begin at a
//! peer over different routers are never compared with one another, since the peer is offered a path over each session apart.
//!
//! Walks are compared, and not paths without loops. Whether two policies permit the same paths without loops is as hard to
//! decide as whether a network has a path through each of many places. What is said of walks holds of paths, and the claim
//! itself speaks of walks where it says who is claimed. So two policies can differ in a walk alone that comes to a router
//! twice.
//!
//! Compiling doesn't need it.
//!
//! It knows nothing of graphs, or of how policies are compared.
#![tactic(auto)]

mod cases;
mod pairs;
mod rows;

pub use cases::{CasePair, PrefixCase};
pub use pairs::{CommonPattern, Pair, PairPrefixes};
pub use rows::{Kind, PairChange, Place, Row, Words};
