//! What traces tell: laws without code.
ghost use Rattle.trace_report.specs.Laws.{QuietWorldsAreReplayed};

/// Where no message waits, what is told of the world is what is told of the settled outcome of its scenario.
pub fn quiet_worlds_are_replayed()
    ensures { QuietWorldsAreReplayed }
{}
