//! The stage of two texts.
ghost use Rattle.std.specs.Prelude.{◌≡◌, ◌<◌, length};
ghost use Rattle.run_base.specs.Said.{IsGiven, said};
ghost use Rattle.config_base.specs.Configs.{IsConfig};
ghost use Rattle.stage_classes.specs.Cells.{cells as cells_between};
ghost use Rattle.stage_check.specs.declared.judging.Verdict.TheVariants.{MayMix, TooManyLines};
ghost use Rattle.stage_check.specs.Verdicts.{verdict as verdict_of};
ghost use Rattle.stage_jobs.specs.Betweens.{IsInTheWay, SaysOfConfigs, SaysOfPair};

use crate::texts::{after_config_for, before_config_for};
use crate::way::{refusal_line, way_line};
use config_base::Config;
use config_text::print_config;
use run_base::{Status, Stop};
use stage_check::{Stage, Verdict, stage_between, verdict_on};
use stage_classes::{Cell, cells_of};
use std::alloc::Global;

// The text of a stage, where nothing is in the way.
#[tactic(auto, using(crate::proofs::Saying::staged))]
fn staged_text(
    alloc: Global,
    which: Stage,
    cells: &[Cell],
    old: &Config,
    new: &Config,
) -> Result<Vec<u8>, Stop>
    requires cells { cells.now ≡ cells_between old.now.classes new.now.classes }
    requires old { IsConfig old.now }
    requires new { IsConfig new.now }
    requires free { verdict_of old.now new.now ≡ MayMix }
    ensures { IsGiven (SaysOfConfigs which old.now new.now) (said result) }
{
    let stage = stage_between(alloc, which, cells, old, new)?;
    Ok(print_config(alloc, &stage)?)
}

// What is in the way is told.
#[tactic(auto, using(crate::proofs::Saying::told))]
fn told_way(
    alloc: Global,
    which: Stage,
    verdict: Verdict,
    old: &Config,
    new: &Config,
) -> Result<Vec<u8>, Stop>
    requires is { verdict_of old.now new.now ≡ verdict }
    requires way { IsInTheWay verdict }
    ensures { IsGiven (SaysOfConfigs which old.now new.now) (said result) }
{
    let line = way_line(alloc, verdict)?;
    Err(Stop::Failing(line))
}

// Too many lines are refused.
#[tactic(auto, using(crate::proofs::Saying::refused))]
fn refused_lines(
    alloc: Global,
    which: Stage,
    number: u64,
    old: &Config,
    new: &Config,
) -> Result<Vec<u8>, Stop>
    requires { verdict_of old.now new.now ≡ TooManyLines number }
    ensures { IsGiven (SaysOfConfigs which old.now new.now) (said result) }
{
    let line = refusal_line(alloc, number)?;
    Err(Stop::Line(Status::Refused, line))
}

// The text of a stage between two configurations, or what is in the way.
fn stage_text(alloc: Global, which: Stage, old: &Config, new: &Config) -> Result<Vec<u8>, Stop>
    ensures { IsGiven (SaysOfConfigs which old.now new.now) (said result) }
{
    let cells = cells_of(alloc, old.classes(), new.classes())?;
    let verdict = verdict_on(alloc, cells.as_slice(), old, new)?;
    match verdict {
        Verdict::MayMix => staged_text(alloc, which, cells.as_slice(), old, new),
        Verdict::TooManyLines(number) => refused_lines(alloc, which, number, old, new),
        Verdict::Unlike(_) | Verdict::SharedTag(_) | Verdict::LowPref(_) => {
            told_way(alloc, which, verdict, old, new)
        }
    }
}

/// The text of a stage between the two configurations that the bytes spell, or why the run stops: the fault that is found in one of the
/// texts, or what is in the way of stages.
pub fn between_texts(
    alloc: Global,
    which: Stage,
    before: &[u8],
    after: &[u8],
) -> Result<Vec<u8>, Stop>
    requires before { length before.now < 4294967295 }
    requires after { length after.now < 4294967295 }
    ensures { IsGiven (SaysOfPair which before.now after.now) (said result) }
{
    let old = before_config_for(alloc, before)?;
    let new = after_config_for(alloc, after)?;
    stage_text(alloc, which, &old, &new)
}
