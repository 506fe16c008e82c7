//! What a topology text means, in the few words of the claim, over the grammar of JSON, with the law that what is read
//! means it. There is no code here.
//!
//! `specs/TopologyText` says it over the grammar of JSON in `json_law`: which keys the objects have, and which texts stand
//! under them. A number is its decimal text, and an address its own one, so nothing of how numbers and addresses are read
//! need be believed. `topologies_mean_what_is_read` says that a text which is read as a topology means its network in these
//! words, too.
//!
//! The reader's own meaning (`topology/specs/Meaning`) is over the values that `serde_json` reads, and holds in both
//! directions. This one is what the claim cites.
//!
//! Compiling doesn't need it.
//!
//! It knows nothing of policies, and of what is read of JSON.
#![tactic(auto)]

ghost use Rattle.topology_law.specs.TopologyLaws.{ReadTopologiesAreMeant};

/// A text that means a network to its reader means it by the grammar of JSON.
pub fn topologies_mean_what_is_read()
    ensures { ReadTopologiesAreMeant }
{}
