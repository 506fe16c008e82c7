//! What is settled so far.
use net_base::{List, Loc};

/// The path of a route, which begins with its holder, and the node in which the path's run ends.
#[derive(Drop)]
pub struct Settled {
    /// The locations of the path, the holder first and the origin last.
    pub path: List<Loc>,
    /// The number, from 0, of the node in which its run ends, at the holder.
    pub node: u32,
}
