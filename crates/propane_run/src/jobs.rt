//! The job of each command: what the bytes of its names come to.
ghost use Rattle.std.specs.Prelude.{◌≡◌, ◌<◌, ◌≤◌, length};
ghost use Rattle.std.specs.List.{AllByRecursion};
ghost use Rattle.compile_jobs.specs.Compiling.{SaysOfThree};
ghost use Rattle.run_base.specs.Reading.{most, word_at};
ghost use Rattle.run_base.specs.Said.{IsGiven, said, text as text_said};
ghost use Rattle.propane_run.specs.Run.{Job};
ghost use Rattle.propane_run.specs.declared.command.Command.TheVariants.{Under, After};
ghost use Rattle.propane_run.specs.Words.{places_of, HasNumber};

use crate::command::{Command, Course, Outlook};
use compare_jobs::compare_texts;
use compile_jobs::{Answer, Part, answered_texts, explain_texts, sample_summary, written_texts};
use help_texts::{help, version};
use judging_jobs::{
    audit_texts, check_map_texts, check_texts, config_maps_text, lint_texts, migrate_text,
    route_map_texts,
};
use net_base::List;
use renewal_jobs::{renewal_texts, reuse_texts};
use report_jobs::{
    DrainCommand, MultipathCommand, ReplayCommand, SettleCommand, TraceCommand, WaitingCommand,
    WhatIfCommand, impact_texts, promises_texts,
};
use run_base::Stop;
use stage_jobs::between_texts;
use std::alloc::Global;

// The text at a place.
fn text(texts: &[List<u8>], place: usize) -> &[u8]
    requires within { place < length texts.now }
    requires short { AllByRecursion (λ bytes. length bytes ≤ most) texts.now }
    ensures is { result.now ≡ word_at texts.now place }
    ensures short { length result.now ≤ most }
{
    texts[place].as_slice()
}

// A text of the program's own.
fn written(alloc: Global, text: &str) -> Result<Vec<u8>, Stop>
    ensures { IsGiven (λ what. what ≡ text_said text.now) (said result) }
{
    Ok(text.as_bytes().to_vec(alloc)?)
}

// What a command comes to that compiles, and answers what a third text asks.
fn answer_texts<A: Answer>(alloc: Global, texts: &[List<u8>]) -> Result<Vec<u8>, Stop>
    requires count { length texts.now ≡ 3 }
    requires short { AllByRecursion (λ bytes. length bytes ≤ most) texts.now }
    ensures { IsGiven (SaysOfThree A.Asked.line_of A.Asked.spelled A.writes texts.now) (said result) }
{
    answered_texts::<A>(alloc, text(texts, 0), text(texts, 1), text(texts, 2))
}

// What is asked under a scenario.
fn under(alloc: Global, outlook: Outlook, texts: &[List<u8>]) -> Result<Vec<u8>, Stop>
    requires count { length texts.now ≡ 3 }
    requires short { AllByRecursion (λ bytes. length bytes ≤ most) texts.now }
    ensures { IsGiven (Job (Under outlook) texts.now) (said result) }
{
    match outlook {
        Outlook::Replay => answer_texts::<ReplayCommand>(alloc, texts),
        Outlook::Drain => answer_texts::<DrainCommand>(alloc, texts),
        Outlook::WhatIf => answer_texts::<WhatIfCommand>(alloc, texts),
        Outlook::Multipath => answer_texts::<MultipathCommand>(alloc, texts),
    }
}

// What is asked after events.
fn after(alloc: Global, course: Course, texts: &[List<u8>]) -> Result<Vec<u8>, Stop>
    requires count { length texts.now ≡ 3 }
    requires short { AllByRecursion (λ bytes. length bytes ≤ most) texts.now }
    ensures { IsGiven (Job (After course) texts.now) (said result) }
{
    match course {
        Course::Trace => answer_texts::<TraceCommand>(alloc, texts),
        Course::Settle => answer_texts::<SettleCommand>(alloc, texts),
        Course::Waiting => answer_texts::<WaitingCommand>(alloc, texts),
    }
}

/// What a command comes to, from the bytes of its names.
pub fn job(alloc: Global, command: &Command, texts: &[List<u8>]) -> Result<Vec<u8>, Stop>
    requires count { length texts.now ≡ length (places_of command.now) }
    requires short { AllByRecursion (λ bytes. length bytes ≤ most) texts.now }
    requires number { HasNumber command.now }
    ensures { IsGiven (Job command.now texts.now) (said result) }
{
    match *command {
        Command::Compile => { written_texts(alloc, Part::Config, text(texts, 0), text(texts, 1)) }
        Command::Evidence => {
            written_texts(alloc, Part::Evidence, text(texts, 0), text(texts, 1))
        }
        Command::Check => check_texts(
            alloc,
            text(texts, 0),
            text(texts, 1),
            text(texts, 2),
            text(texts, 3),
        ),
        Command::Explain => explain_texts(alloc, text(texts, 0), text(texts, 1)),
        Command::Sample(leaves) => sample_summary(alloc, leaves),
        Command::Migrate => migrate_text(alloc, text(texts, 0)),
        Command::Impact(prefix) => { impact_texts(alloc, text(texts, 0), text(texts, 1), prefix) }
        Command::RouteMap => route_map_texts(alloc, text(texts, 0), text(texts, 1)),
        Command::CheckMap => check_map_texts(alloc, text(texts, 0), text(texts, 1)),
        Command::Lint => lint_texts(alloc, text(texts, 0), text(texts, 1)),
        Command::Audit => audit_texts(
            alloc,
            text(texts, 0),
            text(texts, 1),
            text(texts, 2),
            text(texts, 3),
            text(texts, 4),
            text(texts, 5),
        ),
        Command::Help(topic) => written(alloc, help(topic)),
        Command::Version => written(alloc, version()),
        Command::Promises => promises_texts(alloc, text(texts, 0), text(texts, 1)),
        Command::Maps => config_maps_text(alloc, text(texts, 0)),
        Command::Between(stage) => between_texts(alloc, stage, text(texts, 0), text(texts, 1)),
        Command::Renew(part) => renewal_texts(
            alloc,
            part,
            text(texts, 0),
            text(texts, 1),
            text(texts, 2),
        ),
        Command::Reuse(part) => reuse_texts(
            alloc,
            part,
            text(texts, 0),
            text(texts, 1),
            text(texts, 2),
            text(texts, 3),
        ),
        Command::Compare => { compare_texts(alloc, text(texts, 0), text(texts, 1), text(texts, 2)) }
        Command::Under(outlook) => under(alloc, outlook, texts),
        Command::After(course) => after(alloc, course, texts),
    }
}
