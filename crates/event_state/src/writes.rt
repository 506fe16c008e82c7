//! What changes in a world, one thing at a time. The writes have one form, each over a table of its own: what is put there, and that
//! the setting stays.
ghost use Rattle.std.specs.Prelude.{◌≡◌, ◌++◌, ◌∷◌, [], List, Option, IfOk, OnOk, OnErr, IsTrue, drop};
ghost use Rattle.net_base.specs.Network.{is_location, linked};
ghost use Rattle.config_base.specs.declared.route.Route.{Route as PlainRoute};
ghost use Rattle.event_state.specs.Changes.{with_cut_way, with_heard, with_mark, with_queue, with_queued, with_route, with_silence};
ghost use Rattle.event_state.specs.Idle.{without_last};
ghost use Rattle.event_state.specs.States.{setting, state};

use crate::directions::{direction, way};
use crate::queue::Queue;
use crate::world::World;
use config_base::Route;
use net_base::Loc;
use std::alloc::{AllocError, Global};
use std::mem::swap;

impl<'a> World<'a> {
    /// Sets whether a router is down.
    pub fn set_down(&mut self, at: Loc, down: bool)
        requires { IsTrue (is_location self.old.net.now at) }
        ensures world { state self.new ≡ (with_mark at down (state self.old)) }
        ensures setting { setting self.new ≡ setting self.old }
    {
        self.down[at.number() as usize] = down;
    }

    /// Exchanges the route that a router holds with another.
    pub fn swap_route(&mut self, at: Loc, route: &mut Option<Route>)
        requires { IsTrue (is_location self.old.net.now at) }
        ensures world { state self.new ≡ (with_route at route.old (state self.old)) }
        ensures setting { setting self.new ≡ setting self.old }
        ensures route { route.new ≡ (state self.old).route at }
    {
        swap(&mut self.routes[at.number() as usize], route);
    }

    /// Sets whether a link is down from one end to the other. Both directions of a link are set in one event.
    pub fn set_cut(&mut self, from: Loc, to: Loc, cut: bool)
        requires { IsTrue (linked self.old.net.now from to) }
        ensures world { state self.new ≡ (with_cut_way from to cut (state self.old)) }
        ensures setting { setting self.new ≡ setting self.old }
    {
        let place = way(self.net, from, to);
        self.cut[place] = cut;
    }

    /// Sets whether the session of a router and a peer is silent.
    pub fn set_silent(&mut self, router: Loc, peer: Loc, silent: bool)
        requires { IsTrue (linked self.old.net.now router peer) }
        ensures world { state self.new ≡ (with_silence router peer silent (state self.old)) }
        ensures setting { setting self.new ≡ setting self.old }
    {
        let place = way(self.net, router, peer);
        self.silent[place] = silent;
    }

    /// Exchanges what one end of a session has heard from the other with something else.
    pub fn swap_heard(&mut self, from: Loc, to: Loc, message: &mut Option<Route>)
        requires { IsTrue (linked self.old.net.now from to) }
        ensures world { state self.new ≡ (with_heard from to message.old (state self.old)) }
        ensures setting { setting self.new ≡ setting self.old }
        ensures message { message.new ≡ (state self.old).heard from to }
    {
        let place = way(self.net, from, to);
        swap(&mut self.heard[place], message);
    }

    /// Exchanges what one end of a session last queued to the other with something else.
    pub fn swap_queued(&mut self, from: Loc, to: Loc, message: &mut Option<Route>)
        requires { IsTrue (linked self.old.net.now from to) }
        ensures world { state self.new ≡ (with_queued from to message.old (state self.old)) }
        ensures setting { setting self.new ≡ setting self.old }
        ensures message { message.new ≡ (state self.old).queued from to }
    {
        let place = way(self.net, from, to);
        swap(&mut self.queued[place], message);
    }

    /// Exchanges what waits from one end of a session to the other with other messages.
    pub fn swap_queue(&mut self, from: Loc, to: Loc, queue: &mut Queue)
        requires { IsTrue (linked self.old.net.now from to) }
        ensures world { state self.new ≡ (with_queue from to queue.old (state self.old)) }
        ensures setting { setting self.new ≡ setting self.old }
        ensures queue { queue.new ≡ (state self.old).queue from to }
    {
        let place = way(self.net, from, to);
        swap(&mut self.queues[place], queue);
    }

    /// A copy of the first message of a queue in which something waits.
    pub fn first(&self, alloc: Global, from: Loc, to: Loc) -> Result<Option<Route>, AllocError>
        ensures { IfOk result (λ first. (m : Option PlainRoute) (rest : List (Option PlainRoute)) → (state self.now).queue from to ≡ m ∷ rest → first ≡ m) }
    {
        match direction(self.net, from, to) {
            None => Ok(None),
            Some(place) => self.queues[place].first(alloc),
        }
    }

    /// Queues a message. After an error the world is as before.
    pub fn post(&mut self, from: Loc, to: Loc, message: Option<Route>) -> Result<(), AllocError>
        requires { IsTrue (linked self.old.net.now from to) }
        ensures ok { OnOk result (state self.new ≡ (with_queue from to ((state self.old).queue from to ++ message ∷ []) (state self.old))) }
        ensures setting { setting self.new ≡ setting self.old }
        ensures err { OnErr result (state self.new ≡ state self.old) }
    {
        let place = way(self.net, from, to);
        self.queues[place].push(message)
    }

    /// Takes the first message out of a queue, if one waits.
    pub fn pop(&mut self, from: Loc, to: Loc)
        requires { IsTrue (linked self.old.net.now from to) }
        ensures world { state self.new ≡ (with_queue from to (drop 1 ((state self.old).queue from to)) (state self.old)) }
        ensures setting { setting self.new ≡ setting self.old }
    {
        let place = way(self.net, from, to);
        self.queues[place].pop();
    }

    /// Takes the last message out of a queue, if one waits.
    pub fn take_back(&mut self, from: Loc, to: Loc)
        requires { IsTrue (linked self.old.net.now from to) }
        ensures world { state self.new ≡ (with_queue from to (without_last ((state self.old).queue from to)) (state self.old)) }
        ensures setting { setting self.new ≡ setting self.old }
    {
        let place = way(self.net, from, to);
        self.queues[place].take_back();
    }
}
