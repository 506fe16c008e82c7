//! A network with the sets of its locations.
ghost use Rattle.std.specs.Prelude.{◌≡◌};
ghost use Rattle.net_base.specs.NetSets.{locations, peers as all_peers};

use net_base::{LocSet, Net};

/// A network with the set of all its locations, for which each `any` stands, and that of its peers: they are made once for a
/// policy.
#[derive(Clone, Copy)]
pub struct Whole<'a> {
    /// The network.
    pub net: &'a Net,
    /// All of its locations.
    pub all: LocSet,
    /// Its peers.
    pub peers: LocSet,
    ghost all_is: { all ≡ locations net.now },
    ghost peers_are: { peers ≡ all_peers net.now },
}

impl<'a> Whole<'a> {
    /// The network with these sets.
    pub fn of(net: &'a Net) -> Whole<'a>
        ensures { result.net.now ≡ net.now }
    {
        Whole {
            net,
            all: net.locations(),
            peers: net.peer_set(),
        }
    }
}
