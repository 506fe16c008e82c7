//! Where packets go if they are spread.
use net_base::{List, Loc, LocSet};

/// The multipath set of each location, by location; the live links over which no packet goes, and how many links live.
#[derive(Drop)]
pub struct Multipath {
    /// For each location, by its number, its multipath set: empty where it is no router with a route.
    pub sets: List<LocSet>,
    /// The live links over which no packet goes, in the order of the network's links.
    pub idle: List<(Loc, Loc)>,
    /// How many links live.
    pub live: usize,
}
