//! What decides what two policies say of a prefix.
use net_base::LocSet;

/// What decides what a policy says of a prefix: the number of the statement that governs it, from 1, where one does, and the routers that
/// originate it, or none where it comes from all peers.
#[derive(Clone, Copy, PartialEq, Eq, Hash)]
pub struct PrefixCase {
    /// The number of the statement that governs the prefix, from 1, or None where no statement does.
    pub statement: Option<u32>,
    /// The routers that originate the prefix, or None where it comes from all peers.
    pub origins: Option<LocSet>,
}

/// The case of a prefix in the old policy and in the new one.
#[derive(Clone, Copy, PartialEq, Eq, Hash)]
pub struct CasePair {
    /// The case in the old policy.
    pub old: PrefixCase,
    /// The case in the new policy.
    pub new: PrefixCase,
}
