//! There is one answer to what cuts change and move: a law without code.
ghost use Rattle.whatif_report.specs.Moves.{WhatIfsAreOne};

/// There is one answer to what each cut besides the failures changes, and whom it moves.
pub fn what_ifs_are_one()
    ensures { WhatIfsAreOne }
{}
