//! The world before any event has happened.
ghost use Rattle.std.specs.Prelude.{◌≡◌, IfOk, true};
ghost use Rattle.policy_base.specs.Policies.{policy_of};
ghost use Rattle.event_base.specs.Steps.{before_all, opening as opening_of};
ghost use Rattle.event_base.specs.World.{tell as told};
ghost use Rattle.event_core.specs.Followed.{Makes};
ghost use Rattle.event_state.specs.States.{blank, setting, speakers, state};

use crate::changing::Changing;
use crate::known::known_net;
use crate::telling::Deed;
use config_base::Config;
use event_state::World;
use net_base::{Loc, Net, Prefix};
use policy_base::Policy;
use std::alloc::{AllocError, Global};

impl<'c, 'l, 'w> Changing<'c, 'l, 'w> {
    // Each router takes its choice over nothing.
    fn choose_all(&mut self) -> Result<(), AllocError>
        requires { state self.old.world.now ≡ blank }
        ensures { Makes (λ net w. before_all net) self.old self.new result }
    {
        for number in 0..self.world.net().routers().len() {
            self.choose(Loc::new(number as u16))?;
        }
        Ok(())
    }

    // Each location queues what it gives.
    fn tell_all(&mut self) -> Result<(), AllocError>
        ensures { Makes (λ net. told net (λ a b. true)) self.old self.new result }
    {
        known_net(self.world);
        for number in 0..self.world.net().routers().len() + self.world.net().peers().len() {
            self.to_links(Deed::TellOther, Loc::new(number as u16))?;
        }
        Ok(())
    }
}

/// The opening world of a prefix: everything is up, no peer is silent, each router holds its choice over nothing, and all have queued
/// what they give.
pub fn opening<'a>(
    alloc: Global,
    net: &'a Net,
    policy: &'a Policy,
    config: &'a Config,
    prefix: Prefix,
) -> Result<World<'a>, AllocError>
    ensures world { IfOk result (λ w. state w ≡ opening_of (speakers w)) }
    ensures setting { IfOk result (λ w. setting w ≡ (net.now, policy_of policy.now, config.now, prefix)) }
{
    let mut world = World::new(alloc, net, policy, config, prefix)?;
    let mut log = Vec::new(alloc);
    let mut changing = Changing {
        alloc,
        world: &mut world,
        log: &mut log,
    };
    changing.choose_all()?;
    changing.tell_all()?;
    Ok(world)
}
