//! Routers that choose again.
ghost use Rattle.std.specs.Prelude.{◌≡◌, IsTrue};
ghost use Rattle.net_base.specs.Network.{is_location, is_router};
ghost use Rattle.event_base.specs.World.{choose_again as chosen_again, each_again as each_chosen_again, with_choice};
ghost use Rattle.event_core.specs.Followed.{Makes};

use crate::change::Change;
use crate::changing::Changing;
use crate::telling::Deed;
use net_base::Loc;
use std::alloc::AllocError;

impl<'c, 'l, 'w> Changing<'c, 'l, 'w> {
    /// A router takes its choice.
    pub(crate) fn choose(&mut self, at: Loc) -> Result<(), AllocError>
        requires { IsTrue (is_router self.old.world.now.net.now at) }
        ensures { Makes (λ net. with_choice net at) self.old self.new result }
    {
        let route = self.world.choice(self.alloc, at)?;
        self.make(Change::Holds(at, route))
    }

    /// A location that is a router and up takes its choice, and queues what is new for its neighbours.
    pub(crate) fn choose_again(&mut self, at: Loc) -> Result<(), AllocError>
        ensures { Makes (λ net. chosen_again net at) self.old self.new result }
    {
        if !self.world.is_running(at) {
            return Ok(());
        }
        self.choose(at)?;
        self.to_links(Deed::TellOther, at)
    }

    /// The neighbours of a location choose again, in order.
    pub(crate) fn choose_around(&mut self, at: Loc) -> Result<(), AllocError>
        requires { IsTrue (is_location self.old.world.now.net.now at) }
        ensures { Makes (λ net. each_chosen_again net (net.neighbours at)) self.old self.new result }
    {
        for place in 0..self.world.neighbours(at).len() {
            let other = self.world.neighbours(at)[place];
            self.choose_again(other)?;
        }
        Ok(())
    }
}
