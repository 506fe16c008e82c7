//! What every network keeps.
ghost use Rattle.net_base.specs.Network.{IsNet};

use event_state::World;

/// What the network of a world keeps.
pub(crate) fn known_net(world: &World<'_>)
    ensures { IsNet world.now.net.now }
{
    let _links = world.net().links();
}
