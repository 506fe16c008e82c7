//! The cases of a policy: prefixes that have the same statement and the same origins.
use net_base::{List, LocSet, Prefix};

/// One case. An external case has all peers as its origins and names no prefix.
#[derive(Drop)]
pub struct Case {
    /// The number of the statement, from 1.
    pub statement: u32,
    /// The locations at which the prefixes of the case are originated: routers, or all peers for an external case.
    pub origins: LocSet,
    /// Whether the case is that of all prefixes of its statement that nothing originates.
    pub external: bool,
    /// The originated prefixes of the case, in order of the policy; none for an external case.
    pub prefixes: List<Prefix>,
}

/// The cases of a network and a policy in their order. The number of a case, from 1, is the number of its
/// class in the configuration.
#[derive(Drop)]
pub struct CaseList {
    /// The cases, those of originated prefixes first.
    pub cases: List<Case>,
}
