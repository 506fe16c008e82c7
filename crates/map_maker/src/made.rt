//! The maps of a configuration.
ghost use Rattle.std.specs.Prelude.{◌≡◌, ◌≤◌, IfOk, IfErr};
ghost use Rattle.route_maps.specs.OfConfig.{maps_of as of_config, MeansAs};
ghost use Rattle.map_maker.specs.Counts.{line_count};
ghost use Rattle.map_maker.specs.Refused.{IsRefused};
ghost use Rattle.map_maker.specs.declared.lists.TheConstants.{MAX_LINES};

use crate::copies::routers_copy;
use crate::counts::routers_lines;
use crate::lists::{MAX_LINES, lists_of};
use crate::refusal::MapsRefusal;
use config_base::Config;
use route_maps::Maps;
use std::alloc::Global;

/// The maps of a configuration: list N denies each pattern of the classes before N that overlaps some pattern of class N,
/// in their order, and then permits each pattern of class N; the routers are those of the configuration. Refused where
/// their text would have more than 1,000,000 lines, with how many it would have, in at most some 70 searches for each pattern
/// and length of prefixes.
pub fn maps_of(alloc: Global, config: &Config) -> Result<Maps, MapsRefusal>
    ensures maps { IfOk result (λ m. m ≡ of_config config.now) }
    ensures lines { IfOk result (λ m. line_count m ≤ MAX_LINES) }
    ensures means { IfOk result (λ m. MeansAs config.now m) }
    ensures refused { IfErr result (λ e. IsRefused config.now e) }
{
    let others = routers_lines(config.routers()).saturating_add(1);
    let listed = lists_of(alloc, config.classes(), others)?;
    if listed.total > MAX_LINES {
        return Err(MapsRefusal::TooManyLines(listed.total));
    }
    let routers = routers_copy(alloc, config.routers())?;
    Ok(Maps::new(listed.lists, routers))
}
