//! The ten rules together, and the one verdict.
ghost use Rattle.evidence_verdicts.specs.Laws.{PassingIsTheTenRules, VerdictsAreOne};

/// Evidence passes exactly where each of the ten rules holds.
pub fn passing_is_the_ten_rules()
    ensures { PassingIsTheTenRules }
{}

/// There is one verdict. So who is told that the evidence holds knows that it passes, and where it passes nothing else is told.
pub fn verdicts_are_one()
    ensures { VerdictsAreOne }
{}
