//! Networks of three places that never rest, each without one thing that `steady_law` asks for: ties that are broken steadily, or lengths
//! that are compared; no code.
//!
//! `steady_law` says that rounds settle where each router compares lengths and stays with a route while what ties with it stays the same.
//! Here are two networks with one node at each place, which lack one of these, have all else, and never rest (`specs/Restless`):
//!
//! - `proofs/Free`: a router between two peers, whose routes tie, takes now the one and now the other.
//! - `proofs/Equal`: three routers, each linked with the others, one of which is the origin. Where all paths are alike and ties go to the
//!   lowest identifier, the other two hold each other's route, then their own, and so on. The origin has the highest identifier.
//!
//! So neither premise can be left out there (`premises_are_needed`). Of routers that ignore the length of AS paths rest isn't promised.
//!
//! Compiling doesn't need it.
//!
//! It knows nothing of messages, and of anything but abstract networks.
#![tactic(auto)]

ghost use Rattle.restless_law.specs.Restless.{WithFreeTies, WithoutLengths};

/// Without steady ties, and without lengths, some network never rests.
pub fn premises_are_needed()
    ensures ties { WithFreeTies }
    ensures lengths { WithoutLengths }
{}
