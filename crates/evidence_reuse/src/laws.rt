//! What is so of a configuration with what stays, each the contract of a function without a body.
ghost use Rattle.evidence_reuse.specs.Laws.{ReusedEvidencePasses, ReusesAreOne, WhatStaysIsKept};

/// The evidence of a configuration with what stays passes: so it is right.
pub fn reused_evidence_passes()
    ensures { ReusedEvidencePasses }
{}

/// Each case that stays has the graph, the numbers and the tags of the old one.
pub fn what_stays_is_kept()
    ensures { WhatStaysIsKept }
{}

/// There is one for a policy and an old configuration with its evidence.
pub fn reuses_are_one()
    ensures { ReusesAreOne }
{}
