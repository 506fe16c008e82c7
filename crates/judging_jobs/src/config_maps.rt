//! The command `maps`.
ghost use Rattle.std.specs.Prelude.{◌<◌, length};
ghost use Rattle.run_base.specs.Said.{IsGiven, said};
ghost use Rattle.judging_jobs.specs.ConfigMaps.{SaysOfText};

use crate::maps::maps_text_of;
use input_texts::config_for;
use run_base::Stop;
use std::alloc::Global;

/// The text of the maps of the configuration that the bytes spell, or why the run stops: the fault that is found in them, or that
/// the text of the maps would have too many lines.
pub fn config_maps_text(alloc: Global, config: &[u8]) -> Result<Vec<u8>, Stop>
    requires { length config.now < 4294967295 }
    ensures { IsGiven (SaysOfText config.now) (said result) }
{
    let config = config_for(alloc, config)?;
    maps_text_of(alloc, &config)
}
