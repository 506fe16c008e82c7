//! What fails in a quiet world, and leaves it quiet: a law without code.
//!
//! A router whose route doesn't go over what fails still holds the first of all that it hears, so it has nothing to say.
ghost use Rattle.drain_report.specs.Quiet.{FreeFailuresAreQuiet, UnusedFailuresAreQuiet};

/// In a quiet world the failure of a link or router over which no other router's route goes leaves the world quiet: nobody sends a message.
/// Where the evidence passes, such is each that is free.
pub fn failures_off_routes_are_quiet()
    ensures unused { UnusedFailuresAreQuiet }
    ensures free { FreeFailuresAreQuiet }
{}
