//! What every network and every prefix keeps.
ghost use Rattle.net_base.specs.Network.{IsNet};
ghost use Rattle.net_base.specs.Prefixes.{IsPrefix};

use crate::net::Net;
use crate::prefix::Prefix;

/// What every network keeps, for a proof that asks for it.
pub fn known_net(net: &Net)
    ensures { IsNet net.now }
{
    let _routers = net.routers();
}

/// What every prefix keeps, for a proof that asks for it.
pub fn known_prefix(prefix: Prefix)
    ensures { IsPrefix prefix }
{
    let _bits = prefix.bits();
}
