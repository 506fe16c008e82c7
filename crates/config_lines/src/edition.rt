//! The editions of configuration texts.
ghost use Rattle.std.specs.Prelude.{◌≡◌};
ghost use Rattle.config_lines.specs.Editions.{first_line, fits_router, fits_peer, fits_tag};

use net_base::{Tag, peer_as, router_as, tag_fits};

/// The edition of a configuration text, which its first line tells: how tags are written, and which ranges the
/// numbers have.
#[derive(Clone, Copy, Debug, PartialEq, Eq)]
pub enum Edition {
    /// `propane-config 1`: AS numbers of two octets, and tags as communities are written (RFC 1997), `AS:VALUE`.
    First,
    /// `propane-config 2`: AS numbers of four octets (RFC 6793), and tags as large communities are written
    /// (RFC 8092), `AS:0:VALUE`.
    Second,
}

impl Edition {
    /// The first line of a text, without its line feed.
    pub fn first_line(self) -> &'static [u8]
        ensures { result.now ≡ first_line self }
    {
        match self {
            Edition::First => b"propane-config 1",
            Edition::Second => b"propane-config 2",
        }
    }

    /// Whether a router may have this AS number: a private one (RFC 6996), in the first edition from 64512 to 65534.
    pub fn router_as(self, asn: u32) -> bool
        ensures { result ≡ fits_router self asn }
    {
        match self {
            Edition::First => (64_512..=65_534).contains(&asn),
            Edition::Second => router_as(asn),
        }
    }

    /// Whether a peer may have this AS number, in the first edition one from 1 to 65534.
    pub fn peer_as(self, asn: u32) -> bool
        ensures { result ≡ fits_peer self asn }
    {
        match self {
            Edition::First => (1..=65_534).contains(&asn),
            Edition::Second => peer_as(asn),
        }
    }

    /// Whether a line may carry this tag: a router's AS number, in the first edition with a value from 1 to 65535.
    pub fn tag_fits(self, tag: Tag) -> bool
        ensures { result ≡ fits_tag self tag }
    {
        match self {
            Edition::First => self.router_as(tag.asn) && (1..=65_535).contains(&tag.value),
            Edition::Second => tag_fits(tag),
        }
    }
}
