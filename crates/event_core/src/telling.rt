//! What is owed is queued, and what was on a link is forgotten.
ghost use Rattle.std.specs.Prelude.{◌≡◌, IsTrue};
ghost use Rattle.net_base.specs.Network.{is_location, linked};
ghost use Rattle.event_base.specs.World.{emptied, is, tell as told};
ghost use Rattle.event_core.specs.Deeds.{to_link, to_links};
ghost use Rattle.event_core.specs.Followed.{Makes};

use crate::change::Change;
use crate::changing::Changing;
use crate::known::known_net;
use event_state::Queue;
use net_base::Loc;
use std::alloc::AllocError;

/// What is done to a link.
#[derive(Clone, Copy)]
pub(crate) enum Deed {
    /// The first end queues what is new for the second.
    TellOther,
    /// Each end queues what is new for the other.
    TellBoth,
    /// What waits there, was heard and was last queued is forgotten, both ways.
    Forget,
}

impl<'c, 'l, 'w> Changing<'c, 'l, 'w> {
    /// Queues what one end of a session would now send to the other, where that differs from what it last queued.
    pub(crate) fn tell(&mut self, from: Loc, to: Loc) -> Result<(), AllocError>
        ensures { Makes (λ net. told net (is from to)) self.old self.new result }
    {
        if !self.world.owes(from, to) {
            return Ok(());
        }
        let message = self.world.message(self.alloc, from, to)?;
        let noted = self.world.message(self.alloc, from, to)?;
        self.make(Change::Queued(from, to, noted))?;
        self.post(from, to, message)
    }

    // Empties a direction of a link, and forgets what was heard and last queued there.
    fn forget(&mut self, from: Loc, to: Loc) -> Result<(), AllocError>
        requires { IsTrue (linked self.old.world.now.net.now from to) }
        ensures { Makes (λ net. emptied net (is from to)) self.old self.new result }
    {
        self.make(Change::Waiting(from, to, Queue::new(self.alloc)))?;
        self.make(Change::Heard(from, to, None))?;
        self.make(Change::Queued(from, to, None))
    }

    /// Does it to a link.
    pub(crate) fn to_link(&mut self, deed: Deed, a: Loc, b: Loc) -> Result<(), AllocError>
        requires { IsTrue (linked self.old.world.now.net.now a b) }
        ensures { Makes (to_link deed a b) self.old self.new result }
    {
        match deed {
            Deed::TellOther => self.tell(a, b),
            Deed::TellBoth => {
                self.tell(a, b)?;
                self.tell(b, a)
            }
            Deed::Forget => {
                self.forget(a, b)?;
                self.forget(b, a)
            }
        }
    }

    /// Does it to each link of a location, of which that is the first end.
    pub(crate) fn to_links(&mut self, deed: Deed, at: Loc) -> Result<(), AllocError>
        requires { IsTrue (is_location self.old.world.now.net.now at) }
        ensures { Makes (to_links deed at) self.old self.new result }
    {
        known_net(self.world);
        for place in 0..self.world.neighbours(at).len() {
            let other = self.world.neighbours(at)[place];
            self.to_link(deed, at, other)?;
        }
        Ok(())
    }
}
