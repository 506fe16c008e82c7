//! What holds of outcomes beyond the claim: where packets go while an outcome lasts, also where prefixes overlap, and what follows where
//! peers announce what they like; no code.
//!
//! *Packets* go hop by hop along the paths of the routes, over what lives, to a live origin, and come to no place twice
//! (`packets_follow_paths`, `packets_arrive`). Where prefixes overlap, each router sends a packet by the longest one for which it holds a
//! route (`specs/Longest`), which may be another one at the next router.
//!
//! *Peers may announce anything*: an outcome under announcements (`outcome_base/specs/Announcements`) is, as far as its paths lead within
//! the network, a plain one in which more sessions are silent (`proofs/Inside`). No router's number stands behind a route, so loops are
//! found as in the plain sense. In a peer's block no import line has the class of a prefix of which the peer is no origin (`proofs/Peers`).
//! So no law need be proved again for peers that lie: what is right of all plain outcomes is right of these
//! (`passing_evidence_withstands_peers`).
//!
//! Compiling doesn't need it.
//!
//! It knows nothing of the compiler and events.
#![tactic(auto)]

mod announcements;
mod packet_paths;

pub use announcements::{origins_have_lines, passing_evidence_withstands_peers, silenced_sessions};
pub use packet_paths::{
    packets_arrive, packets_follow_paths, packets_take_best_paths, peers_follow_offers,
};
