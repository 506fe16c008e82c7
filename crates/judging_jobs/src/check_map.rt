//! The command `checkmap`.
ghost use Rattle.std.specs.Prelude.{◌<◌, length};
ghost use Rattle.run_base.specs.Said.{IsGiven, said};
ghost use Rattle.judging_jobs.specs.MapsJobs.{SaysOfBoth, SaysOfBytes, SaysOfPair};

use crate::map_said::{differs_line, same_line};
use crate::maps::maps_of_config;
use config_base::Config;
use input_texts::{config_for, maps_for};
use route_map_text::print_maps;
use route_maps::Maps;
use run_base::Stop;
use std::alloc::Global;
use text_parts::first_difference;

// What the text of maps and the wanted text come to.
fn compared(alloc: Global, bytes: &[u8], wanted: &[u8]) -> Result<Vec<u8>, Stop>
    ensures { IsGiven (SaysOfBoth bytes.now wanted.now) (said result) }
{
    if bytes == wanted {
        return Ok(same_line(alloc)?);
    }
    let number = first_difference(bytes, wanted);
    Err(Stop::Failing(differs_line(alloc, number)?))
}

// What the maps of a text come to beside those of the configuration.
fn maps_compared(alloc: Global, config: &Config, bytes: &[u8]) -> Result<Vec<u8>, Stop>
    ensures { IsGiven (SaysOfBytes config.now bytes.now) (said result) }
{
    let wanted = maps_of_config(alloc, config)?;
    let wanted = print_maps(alloc, &wanted)?;
    compared(alloc, bytes, &wanted)
}

/// What the texts of a configuration and of maps come to: that the maps are those of the configuration, or why the run stops.
/// Maps that differ stop it.
pub fn check_map_texts(alloc: Global, config: &[u8], maps: &[u8]) -> Result<Vec<u8>, Stop>
    requires config { length config.now < 4294967295 }
    requires maps { length maps.now < 4294967295 }
    ensures { IsGiven (SaysOfPair config.now maps.now) (said result) }
{
    let config = config_for(alloc, config)?;
    let _read = maps_for(alloc, maps)?;
    maps_compared(alloc, &config, maps)
}
