//! What each event does.
ghost use Rattle.std.specs.Prelude.{◌≡◌, None, IsTrue};
ghost use Rattle.net_base.specs.Network.{is_router, linked};
ghost use Rattle.event_base.specs.Steps.{fault_of, step, unless_waiting};
ghost use Rattle.event_base.specs.World.{is, tell as told, with_cut, with_down, with_silent};
ghost use Rattle.event_base.specs.declared.event.Event.TheVariants.{Deliver, LinkDown, LinkUp, RouterDown, RouterUp};
ghost use Rattle.event_core.specs.Followed.{Ends, Makes};
ghost use Rattle.event_state.specs.States.{speakers, state};

use crate::change::Change;
use crate::changing::Changing;
use crate::known::known_net;
use crate::telling::Deed;
use event_base::Event;
use net_base::Loc;
use std::alloc::AllocError;

impl<'c, 'l, 'w> Changing<'c, 'l, 'w> {
    // Whether a link is down, both ways.
    fn cut(&mut self, a: Loc, b: Loc, cut: bool) -> Result<(), AllocError>
        requires { IsTrue (linked self.old.world.now.net.now a b) }
        ensures { Makes (λ net. with_cut net a b cut) self.old self.new result }
    {
        self.make(Change::Cut(a, b, cut))?;
        self.make(Change::Cut(b, a, cut))
    }

    // Whether a router is down: then it has no route, and where it is up again it has none yet.
    fn fall(&mut self, at: Loc, down: bool) -> Result<(), AllocError>
        requires { IsTrue (is_router self.old.world.now.net.now at) }
        ensures { Makes (λ net. with_down net at down) self.old self.new result }
    {
        self.make(Change::Down(at, down))?;
        self.make(Change::Holds(at, None))
    }

    // A link goes down: what was on it is forgotten, and its ends choose again.
    fn link_down(&mut self, a: Loc, b: Loc) -> Result<(), AllocError>
        requires { IsTrue (linked self.old.world.now.net.now a b) }
        ensures { Makes (λ net. step net (LinkDown a b)) self.old self.new result }
    {
        self.cut(a, b, true)?;
        self.to_link(Deed::Forget, a, b)?;
        self.choose_again(a)?;
        self.choose_again(b)
    }

    // A link comes up: each end queues what is new for the other.
    fn link_up(&mut self, a: Loc, b: Loc) -> Result<(), AllocError>
        requires { IsTrue (linked self.old.world.now.net.now a b) }
        ensures { Makes (λ net. step net (LinkUp a b)) self.old self.new result }
    {
        self.cut(a, b, false)?;
        self.to_link(Deed::TellBoth, a, b)
    }

    // A router goes down: what was on its links is forgotten, and its neighbours choose again.
    fn router_down(&mut self, at: Loc) -> Result<(), AllocError>
        requires { IsTrue (is_router self.old.world.now.net.now at) }
        ensures { Makes (λ net. step net (RouterDown at)) self.old self.new result }
    {
        self.fall(at, true)?;
        self.to_links(Deed::Forget, at)?;
        self.choose_around(at)
    }

    // A router comes up: it chooses, and all its links are told what is new.
    fn router_up(&mut self, at: Loc) -> Result<(), AllocError>
        requires { IsTrue (is_router self.old.world.now.net.now at) }
        ensures { Makes (λ net. step net (RouterUp at)) self.old self.new result }
    {
        self.fall(at, false)?;
        self.choose_again(at)?;
        self.to_links(Deed::TellBoth, at)
    }

    // Whether a peer is silent towards a router, to which it queues what is new then.
    fn silence(&mut self, router: Loc, peer: Loc, silent: bool) -> Result<(), AllocError>
        requires { IsTrue (linked self.old.world.now.net.now router peer) }
        ensures { Makes (λ net w. told net (is peer router) (with_silent net router peer silent w)) self.old self.new result }
    {
        self.make(Change::Silent(router, peer, silent))?;
        self.tell(peer, router)
    }

    // The first message is heard, and leaves the queue in the end, since then nothing is undone any more.
    fn deliver(&mut self, from: Loc, to: Loc) -> Result<(), AllocError>
        requires linked { IsTrue (linked self.old.world.now.net.now from to) }
        requires waits { unless_waiting ((state self.old.world.now).queue from to) ≡ None }
        ensures { Ends (λ net. step net (Deliver from to)) self.old self.new result }
    {
        known_net(self.world);
        let message = self.world.first(self.alloc, from, to)?;
        self.make(Change::Heard(from, to, message))?;
        self.choose_again(to)?;
        self.world.pop(from, to);
        Ok(())
    }

    /// An event that isn't refused happens. After an error what has changed is to be undone.
    pub(crate) fn happen(&mut self, event: &Event) -> Result<(), AllocError>
        requires { fault_of (speakers self.old.world.now) event.now (state self.old.world.now) ≡ None }
        ensures { Ends (λ net. step net event.now) self.old self.new result }
    {
        match *event {
            Event::Deliver(a, b) => self.deliver(a, b),
            Event::LinkDown(a, b) => self.link_down(a, b),
            Event::LinkUp(a, b) => self.link_up(a, b),
            Event::RouterDown(r) => self.router_down(r),
            Event::RouterUp(r) => self.router_up(r),
            Event::PeerSpeak(r, p) => self.silence(r, p, false),
            Event::PeerSilent(r, p) => self.silence(r, p, true),
        }
    }
}
