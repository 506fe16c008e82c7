//! Route maps, lists and entries, and what they make of a prefix and of a route; and the law that the maps of a
//! configuration mean what its lines mean.
//!
//! Routers in the field have no classes. They have prefix lists and route maps, of which the first entry that matches
//! decides. `Maps` is that: numbered lists, whose first line with a pattern around a prefix permits or denies it, and
//! routers whose entries name lists. The blocks are those of a configuration, where the class of a line is the number of a
//! list. `list_permits`, `map_in` and `map_out` say what maps do; `map_in` gives a tag and a preference (LOCAL_PREF, RFC
//! 4271, 5.1.5) and refuses loops (RFC 4271, 9.1.2).
//!
//! `specs/OfConfig` says which maps are those of a configuration. A class is the first one with a pattern around a prefix,
//! and a list stands for itself. So the list of a class denies each pattern of an earlier class that overlaps one of its
//! own, and then permits its own. `maps_mean_what_lines_mean` says that these maps make of each route what the lines make
//! of it. `overlapping_patterns_meet` says that two patterns overlap exactly where both contain some prefix, so no line
//! denies a pattern that meets none of the class.
//!
//! `routemap`, `checkmap` and `maps` alone need it.
//!
//! It knows nothing of texts.
#![tactic(auto)]

mod entries;
pub mod laws;
mod maps;

pub use entries::{list_permits, map_in, map_out};
pub use maps::{ListLine, Maps};
