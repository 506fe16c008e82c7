//! What route maps mean, and that those of a configuration mean what its lines mean.
ghost use Rattle.std.specs.Prelude.{◌↔◌, IsTrue};
ghost use Rattle.net_base.specs.Prefixes.{PlainPattern, IsPattern};
ghost use Rattle.config_base.specs.Configs.{PlainConfig};
ghost use Rattle.route_maps.specs.OfConfig.{maps_of, MeansAs};
ghost use Rattle.route_maps.specs.Overlaps.{overlap, Meet};

/// Two patterns overlap exactly where some prefix is contained in both.
pub fn overlapping_patterns_meet()
    ensures { (a b : PlainPattern) → IsPattern a → IsPattern b → IsTrue (overlap a b) ↔ Meet a b }
{}

/// A list of a configuration's maps permits a prefix exactly where its number is that of the prefix's class; and the
/// maps make of each route what the configuration's lines make of it.
pub fn maps_mean_what_lines_mean()
    ensures { (config : PlainConfig) → MeansAs config (maps_of config) }
{}
