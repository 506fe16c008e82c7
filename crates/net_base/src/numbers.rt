//! AS numbers and tags.
ghost use Rattle.std.specs.Prelude.{◌≡◌};
ghost use Rattle.net_base.specs.Numbers.{is_router_as, is_peer_as, is_tag};

/// A tag is a large community (RFC 8092): an AS number and a value. The part between them is always 0, so it isn't kept.
/// Where both are 0 it stands for no tag.
#[derive(Clone, Copy, Debug, PartialEq, Eq, PartialOrd, Ord, Hash)]
pub struct Tag {
    /// The AS number of the router that owns the tag, or 0 for no tag.
    pub asn: u32,
    /// The number of the tag among those of its router, or 0 for no tag.
    pub value: u32,
}

/// Whether a router may have this AS number: a private one of two or of four octets (RFC 6996).
pub fn router_as(asn: u32) -> bool
    ensures { result ≡ is_router_as asn }
{
    (64_512..=65_534).contains(&asn) || (4_200_000_000..=4_294_967_294).contains(&asn)
}

/// Whether a peer may have this AS number: one of four octets (RFC 6793) that isn't 0 (RFC 7607), and not the last one of two
/// or of four octets (RFC 7300).
pub fn peer_as(asn: u32) -> bool
    ensures { result ≡ is_peer_as asn }
{
    (1..=65_534).contains(&asn) || (65_536..=4_294_967_294).contains(&asn)
}

/// Whether a configuration may carry this tag: a router's AS number and a value from 1 to 4294967295.
pub fn tag_fits(tag: Tag) -> bool
    ensures { result ≡ is_tag tag }
{
    router_as(tag.asn) && (1..=4_294_967_295).contains(&tag.value)
}
