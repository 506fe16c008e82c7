//! How much a network may have.

/// Routers of a network.
pub const ROUTERS: u64 = 512;
/// Peers of a network.
pub const PEERS: u64 = 256;
/// Routers and peers of a network.
pub const LOCATIONS: u64 = 768;
/// Links of a network.
pub const LINKS: u64 = 8_192;
/// Bytes of a name.
pub const NAME_BYTES: u64 = 32;
