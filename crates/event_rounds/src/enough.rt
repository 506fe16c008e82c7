//! How many rounds are enough.
ghost use Rattle.std.specs.Prelude.{◌≡◌, ◌<◌};
ghost use Rattle.net_base.specs.Network.{IsNet};
ghost use Rattle.rest_law.specs.Rest.{rounds_enough as enough_for};

use net_base::Net;

/// After so many rounds no message waits, where the network comes to rest.
pub(crate) fn rounds_enough(net: &Net) -> u64
    ensures value { result ≡ enough_for net.now }
    ensures small { result < 4294967296 }
    ensures rules { IsNet net.now }
{
    let routers = net.routers().len() as u64;
    routers * (routers + 3) + 1
}
