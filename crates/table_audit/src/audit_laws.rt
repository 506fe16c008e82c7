//! What an audit says of an outcome.
ghost use Rattle.table_audit.specs.Verdicts.{StableIsTold, StableTablesAreRight, VerdictsAreOne};

/// An outcome has one verdict at most.
pub fn verdicts_are_one()
    ensures { VerdictsAreOne }
{}

/// The verdict is `Stable` exactly where the outcome is stable.
pub fn stable_is_told()
    ensures { StableIsTold }
{}

/// Where the evidence passes, routes with that verdict are right: each claimed source has an allowed path of the best rank that
/// survives, and none only where none survives.
pub fn stable_tables_are_right()
    ensures { StableTablesAreRight }
{}
