//! The command `migrate`.
ghost use Rattle.std.specs.Prelude.{◌<◌, length};
ghost use Rattle.run_base.specs.Said.{IsGiven, said};
ghost use Rattle.judging_jobs.specs.Migrated.{SaysOfText};

use config_text::print_config;
use input_texts::config_1_for;
use run_base::Stop;
use std::alloc::Global;

/// The text, in the second edition, of the configuration that the bytes spell as a text of the first, or why the run
/// stops: the fault that `read_config_1` finds.
pub fn migrate_text(alloc: Global, config: &[u8]) -> Result<Vec<u8>, Stop>
    requires { length config.now < 4294967295 }
    ensures { IsGiven (SaysOfText config.now) (said result) }
{
    let config = config_1_for(alloc, config)?;
    Ok(print_config(alloc, &config)?)
}
