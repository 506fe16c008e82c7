//! The maps of a configuration.
ghost use Rattle.run_base.specs.Said.{IsGiven, said};
ghost use Rattle.judging_jobs.specs.MapsJobs.{AreMapsOr, SaysOfConfig};

use crate::map_said::too_many_lines_line;
use config_base::Config;
use map_maker::{MapsRefusal, maps_of};
use route_map_text::print_maps;
use route_maps::Maps;
use run_base::{Status, Stop};
use std::alloc::Global;

/// The maps of a configuration, or why the run stops: their text would have too many lines.
pub fn maps_of_config(alloc: Global, config: &Config) -> Result<Maps, Stop>
    ensures { AreMapsOr config.now result }
{
    match maps_of(alloc, config) {
        Ok(maps) => Ok(maps),
        Err(MapsRefusal::NoMemory) => Err(Stop::NoMemory),
        Err(MapsRefusal::TooManyLines(number)) => {
            let line = too_many_lines_line(alloc, number)?;
            Err(Stop::Line(Status::Refused, line))
        }
    }
}

/// The text of a configuration's maps, or why the run stops: it would have too many lines.
#[tactic(auto, using(crate::proofs::MapJobLaws::config_said))]
pub fn maps_text_of(alloc: Global, config: &Config) -> Result<Vec<u8>, Stop>
    ensures { IsGiven (SaysOfConfig config.now) (said result) }
{
    let maps = maps_of_config(alloc, config)?;
    Ok(print_maps(alloc, &maps)?)
}
