//! Peers may announce anything: laws without code.
//!
//! An outcome under announcements (`outcome_base/specs/Announcements`) is, as far as its paths lead within the network, a plain one in
//! which more sessions are silent (`proofs/Inside`): no router's number stands behind a route, so loops are found as in the plain sense,
//! and in a peer's block no import line has the class of a prefix of which the peer is no origin (`proofs/Peers`).
ghost use Rattle.outcome_law.specs.Laws.{OriginsAloneAreTaken, OriginsAreToldNothing, PassingEvidenceWithstandsPeers, SilencedSessions};

/// Where the evidence passes the configuration is right whatever the peers announce; no router takes from a peer what an item originates
/// or no statement governs, and none sends a peer what no item originates.
pub fn passing_evidence_withstands_peers()
    ensures { PassingEvidenceWithstandsPeers }
{}

/// Which sessions count as silent.
pub fn silenced_sessions()
    ensures { SilencedSessions }
{}

/// No router has a line that takes from a peer a prefix of which the peer is no origin, and none a line that sends one to a peer that is.
pub fn origins_have_lines()
    ensures taken { OriginsAloneAreTaken }
    ensures sent { OriginsAreToldNothing }
{}
