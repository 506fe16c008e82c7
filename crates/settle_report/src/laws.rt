//! What settlements are: a law without code.
ghost use Rattle.settle_report.specs.Laws.{SettlementsAreOne};

/// One text tells how a network settles after some events.
pub fn settlements_are_one()
    ensures { SettlementsAreOne }
{}
