//! The tags of the nodes of graphs: a router's AS number and a count of its nodes.
//!
//! A tag is a large community (RFC 8092): a router's AS number may have four octets (RFC 6793), and a router needs a tag for each of its
//! nodes, so a community of 32 bits (RFC 1997) is too small. The middle part is always 0, so a tag is two numbers. Nodes at peers have no
//! tag.
//!
//! `tags` goes over all graphs in order, with a counter for each router: the value is the node's place, from 1, among the nodes at that
//! router. One set of tags serves all routers and cases. A tag that is right by itself carries its router's number, and these differ; the
//! tags of one router differ over all cases (`tags_keep_their_rule`). So a line asks for a tag and thereby for one node of one case.
//!
//! No policy runs out of tags, and no refusal speaks of them. `tags` asks that there are fewer nodes than values, 4,294,967,296. A policy
//! within the limits has at most 4,352 cases, one for each originated prefix and each statement, of at most 4,096 nodes each.
//!
//! It knows nothing of policies.
#![tactic(auto)]

mod assign;
mod law;

pub use assign::tags;
pub use law::tags_keep_their_rule;
