//! The texts of an old and a new configuration.
ghost use Rattle.std.specs.Prelude.{◌<◌, length};
ghost use Rattle.config_base.specs.Configs.{PlainConfig};
ghost use Rattle.config_reader.specs.Text.{spelled};
ghost use Rattle.input_texts.specs.Texts.{IsReadOr};
ghost use Rattle.stage_jobs.specs.Betweens.{after_line, before_line};

use config_base::Config;
use config_reader::read_config;
use input_texts::or_told;
use run_base::Stop;
use std::alloc::Global;

/// The old configuration that the bytes spell, or why the run stops.
pub fn before_config_for(alloc: Global, config: &[u8]) -> Result<Config, Stop>
    requires { length config.now < 4294967295 }
    ensures { IsReadOr (λ (c : PlainConfig). c) before_line (spelled config.now) result }
{
    or_told(alloc, b"before config", read_config(alloc, config))
}

/// The new configuration that the bytes spell, or why the run stops.
pub fn after_config_for(alloc: Global, config: &[u8]) -> Result<Config, Stop>
    requires { length config.now < 4294967295 }
    ensures { IsReadOr (λ (c : PlainConfig). c) after_line (spelled config.now) result }
{
    or_told(alloc, b"after config", read_config(alloc, config))
}
