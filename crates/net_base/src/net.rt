//! Networks.
ghost use Rattle.std.specs.Prelude.{◌≡◌, ◌<◌, ◌+◌, IsTrue, Some, None, option_map, if◌then◌else◌};
ghost use Rattle.std.specs.List.{position};
ghost use Rattle.net_base.specs.Network.{PlainNet, IsNet, Ascend, joins, linked, ordered as in_order, is_before, same_ends, is_peer, is_router, is_location, site_of};
ghost use Rattle.net_base.specs.NetSets.{locations as all_locations, peers as all_peers};

use crate::list::List;
use crate::loc::{Loc, LocSet};
use crate::name::Name;
use std::marker::Model;

/// A router or a peer: its name, its AS number, and its BGP identifier as a number of 32 bits
/// (RFC 4271, 4.2).
#[derive(Clone, Copy)]
pub struct Site {
    /// Its name, which no other location of the network has.
    pub name: Name,
    /// Its AS number: a private one for a router (RFC 6996), a public or private one for a peer (RFC 6793).
    pub asn: u32,
    /// Its BGP identifier (RFC 4271, 4.2; RFC 6286), from 1 to 4294967295: an IPv4 address with its first byte highest.
    pub id: u32,
}

/// A network: routers, peers, and links between locations. Each router is one private AS. Names, AS
/// numbers and identifiers differ; the lesser location of a link stands first and is a router; links
/// ascend.
#[derive(Drop)]
pub struct Net {
    routers: List<Site>,
    peers: List<Site>,
    links: List<(Loc, Loc)>,
}

impl Model for Net {
    ghost use Rattle.net_base.specs.Network.{PlainNet, IsNet};

    ghost Value = { PlainNet };

    ghost view = { λ n. record { routers = n.routers; peers = n.peers; links = n.links } };

    ghost invariant = { λ n. IsNet (record { routers = n.routers; peers = n.peers; links = n.links }) };
}

// The lesser of two locations first.
fn ordered(a: Loc, b: Loc) -> (Loc, Loc)
    ensures { result ≡ in_order a b }
{
    if a < b { (a, b) } else { (b, a) }
}

// Whether a link stands before these ends.
fn stands_before(link: (Loc, Loc), ends: (Loc, Loc)) -> bool
    ensures { result ≡ is_before link ends }
{
    link < ends
}

// The place of a link, where it has these ends.
fn place_if(place: usize, link: (Loc, Loc), ends: (Loc, Loc)) -> Option<usize>
    ensures { result ≡ (if same_ends ends link then Some place else None) }
{
    if ends == link { Some(place) } else { None }
}

// The place of the link of these ends, among links that ascend.
fn place_of(links: &[(Loc, Loc)], ends: (Loc, Loc)) -> Option<usize>
    requires { Ascend links.now }
    ensures { result ≡ position (same_ends ends) links.now }
{
    let place = links.partition_point(|link| stands_before(*link, ends));
    let link = *links.get(place)?;
    place_if(place, link, ends)
}

impl Net {
    /// The network of these routers, peers and links.
    pub fn new(routers: List<Site>, peers: List<Site>, links: List<(Loc, Loc)>) -> Net
        requires { IsNet (record { routers = routers; peers = peers; links = links }) }
        ensures { result ≡ record { routers = routers; peers = peers; links = links } }
    {
        Net {
            routers,
            peers,
            links,
        }
    }

    /// The routers, in order of location.
    pub fn routers(&self) -> &[Site]
        ensures routers { result.now ≡ self.now.routers }
        ensures rules { IsNet self.now }
    {
        self.routers.as_slice()
    }

    /// The peers, in order of location.
    pub fn peers(&self) -> &[Site]
        ensures peers { result.now ≡ self.now.peers }
        ensures rules { IsNet self.now }
    {
        self.peers.as_slice()
    }

    /// The links in ascending order, the lesser location of each first.
    pub fn links(&self) -> &[(Loc, Loc)]
        ensures links { result.now ≡ self.now.links }
        ensures rules { IsNet self.now }
    {
        self.links.as_slice()
    }

    /// The place of the link that joins the two locations, or None where there is none.
    pub fn link_place(&self, a: Loc, b: Loc) -> Option<usize>
        ensures { result ≡ position (joins a b) self.now.links }
    {
        place_of(self.links(), ordered(a, b))
    }

    /// Whether a link joins the two locations.
    pub fn linked(&self, a: Loc, b: Loc) -> bool
        ensures { result ≡ linked self.now a b }
    {
        self.link_place(a, b).is_some()
    }

    /// Whether the location is a router of the net.
    pub fn is_router(&self, at: Loc) -> bool
        ensures { result ≡ is_router self.now at }
    {
        (at.number() as usize) < self.routers.as_slice().len()
    }

    /// Whether the location is a peer of the net.
    pub fn is_peer(&self, at: Loc) -> bool
        ensures { result ≡ is_peer self.now at }
    {
        let place = at.number() as usize;
        let routers = self.routers.as_slice().len();
        routers <= place && place - routers < self.peers.as_slice().len()
    }

    /// The set of all locations.
    pub fn locations(&self) -> LocSet
        ensures { result ≡ all_locations self.now }
    {
        LocSet::of_range(0, (self.routers().len() + self.peers().len()) as u16)
    }

    /// The set of the peers.
    pub fn peer_set(&self) -> LocSet
        ensures { result ≡ all_peers self.now }
    {
        let routers = self.routers().len();
        LocSet::of_range(routers as u16, (routers + self.peers().len()) as u16)
    }

    /// The router or peer at a location.
    pub fn site(&self, at: Loc) -> &Site
        requires { IsTrue (is_location self.now at) }
        ensures { site_of self.now at ≡ Some result.now }
    {
        let place = at.number() as usize;
        let routers = self.routers.as_slice();
        if place < routers.len() {
            &routers[place]
        } else {
            &self.peers.as_slice()[place - routers.len()]
        }
    }

    /// The name of a location.
    pub fn name_of(&self, at: Loc) -> Name
        requires { IsTrue (is_location self.now at) }
        ensures { option_map (λ s. s.name) (site_of self.now at) ≡ Some result }
    {
        self.site(at).name
    }
}
