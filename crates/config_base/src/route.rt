//! Routes.
use net_base::{List, Loc, Tag};

/// The tag of a route that has none.
pub const NO_TAG: Tag = Tag { asn: 0, value: 0 };

/// A route that a router holds: a path that begins with its holder, a tag or none, and a preference
/// (RFC 4271, 9.1.1). The path's AS numbers are its AS_PATH (RFC 4271, 5.1.2).
#[derive(Drop)]
pub struct Route {
    /// The locations that the route came through: the holder first, the origin last.
    pub path: List<Loc>,
    /// The tag that the route carries, or `NO_TAG`.
    pub tag: Tag,
    /// The local preference (RFC 4271, 5.1.5), from 0 to 4294967295: the greatest one wins.
    pub pref: u32,
}
