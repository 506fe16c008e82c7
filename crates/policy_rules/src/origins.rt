//! Which routers originate which prefixes.
ghost use Rattle.std.specs.Prelude.{◌≡◌, ◌≤◌, ◌+◌};
ghost use Rattle.net_base.specs.declared.limits.TheConstants.{LOCATIONS};
ghost use Rattle.net_base.specs.NetSets.{peers as all_peers};
ghost use Rattle.policy_rules.specs.Origins.{has_some as some_from, has_peer as peer_in};

use net_base::{Loc, LocSet, Net};

// Whether the set has one of `count` locations from `first` on.
fn has_some(set: &LocSet, first: u16, count: u16) -> bool
    requires { first + count ≤ LOCATIONS }
    ensures { result ≡ some_from set.now first count }
{
    for number in first..first + count {
        if set.holds(Loc::new(number)) {
            return true;
        }
    }
    false
}

/// Whether a set of locations of a network, which has these peers, has a peer.
pub fn has_peer(net: &Net, peers: &LocSet, set: &LocSet) -> bool
    requires { peers.now ≡ all_peers net.now }
    ensures { result ≡ peer_in net.now set.now }
{
    let first = net.routers().len() as u16;
    let count = net.peers().len() as u16;
    // Most sets have none, which is seen from their words at once.
    if set.common(peers).is_empty() {
        return false;
    }
    has_some(set, first, count)
}
