//! The world of the events on a configured network.
ghost use Rattle.std.specs.Prelude.{◌≡◌, ◌&&◌, length, map, option_map, slice_index_or, IsTrue, []};
ghost use Rattle.net_base.specs.Locations.{in_order, neighbours};
ghost use Rattle.net_base.specs.Network.{is_location};
ghost use Rattle.config_base.specs.Lines.{class_of};
ghost use Rattle.event_state.specs.Idle.{is_idle as is_idle_queue};
ghost use Rattle.event_state.specs.Sizes.{IsByDirection, IsByLocation};

use crate::directions::{direction, mark, mark_at, route, route_at};
use crate::queue::Queue;
use config_base::{Config, Route};
use net_base::{List, Loc, Net, Prefix};
use policy_base::Policy;

/// A network under a policy's configuration, for one prefix, and how it stands: what is down, cut and silent, which
/// messages wait, what was last queued and heard, and what each router holds.
#[derive(Drop)]
pub struct World<'a> {
    pub(crate) net: &'a Net,
    pub(crate) policy: &'a Policy,
    pub(crate) config: &'a Config,
    pub(crate) prefix: Prefix,
    pub(crate) class: Option<u32>,
    pub(crate) near: Vec<List<Loc>>,
    pub(crate) down: Vec<bool>,
    pub(crate) routes: Vec<Option<Route>>,
    pub(crate) cut: Vec<bool>,
    pub(crate) silent: Vec<bool>,
    pub(crate) queues: Vec<Queue>,
    pub(crate) heard: Vec<Option<Route>>,
    pub(crate) queued: Vec<Option<Route>>,
    ghost of_class: { class ≡ class_of config.now prefix },
    ghost of_near: { near.items ≡ map (neighbours net.now) (in_order net.now) },
    ghost by_location: { IsByLocation net.now down.items × IsByLocation net.now routes.items },
    ghost by_direction: { IsByDirection net.now cut.items × IsByDirection net.now silent.items × IsByDirection net.now queues.items
        × IsByDirection net.now heard.items × IsByDirection net.now queued.items },
}

// Whether nothing waits at a place.
fn is_idle_at(queues: &[Queue], place: usize) -> bool
    ensures { result ≡ is_idle_queue (slice_index_or queues.now place []) }
{
    place >= queues.len() || queues[place].is_empty()
}

// How many messages wait at a place.
fn waiting_at(queues: &[Queue], place: usize) -> usize
    ensures { result ≡ length (slice_index_or queues.now place []) }
{
    if place < queues.len() {
        queues[place].len()
    } else {
        0
    }
}

impl<'a> World<'a> {
    ghost use Rattle.event_base.specs.World.{live, offers, running};
    ghost use Rattle.event_state.specs.States.{speakers, state};

    /// Whether the location is a router that is down.
    pub fn is_down(&self, at: Loc) -> bool
        ensures { result ≡ (state self.now).down at }
    {
        mark(self.down.as_slice(), at.number() as usize)
    }

    /// The route that a router holds.
    pub fn route(&self, at: Loc) -> Option<&Route>
        ensures { option_map (λ h. h.now) result ≡ (state self.now).route at }
    {
        route(self.routes.as_slice(), at.number() as usize)
    }

    /// The route that one end of a session last heard from the other.
    pub fn heard(&self, from: Loc, to: Loc) -> Option<&Route>
        ensures { option_map (λ m. m.now) result ≡ (state self.now).heard from to }
    {
        route_at(self.net, self.heard.as_slice(), from, to)
    }

    /// What one end of a session last queued to the other.
    pub fn queued(&self, from: Loc, to: Loc) -> Option<&Route>
        ensures { option_map (λ m. m.now) result ≡ (state self.now).queued from to }
    {
        route_at(self.net, self.queued.as_slice(), from, to)
    }

    /// Whether the link of two locations is down.
    pub fn is_cut(&self, a: Loc, b: Loc) -> bool
        ensures { result ≡ (state self.now).cut a b }
    {
        mark_at(self.net, self.cut.as_slice(), a, b)
    }

    /// Whether the session of a router and a peer is silent.
    pub fn is_silent(&self, router: Loc, peer: Loc) -> bool
        ensures { result ≡ (state self.now).silent router peer }
    {
        mark_at(self.net, self.silent.as_slice(), router, peer)
    }

    /// Whether the link of two locations and both of them are up.
    pub fn is_live(&self, a: Loc, b: Loc) -> bool
        ensures { result ≡ live (speakers self.now) (state self.now) a b }
    {
        self.net.linked(a, b) && !self.is_cut(a, b) && !self.is_down(a) && !self.is_down(b)
    }

    /// Whether the location is a router that is up.
    pub fn is_running(&self, at: Loc) -> bool
        ensures { result ≡ running (speakers self.now) (state self.now) at }
    {
        self.net.is_router(at) && !self.is_down(at)
    }

    /// What a location has heard over a live session.
    pub fn offer(&self, at: Loc, from: Loc) -> Option<&Route>
        ensures { option_map (λ m. m.now) result ≡ offers (speakers self.now) (state self.now) at from }
    {
        if self.is_live(from, at) {
            self.heard(from, at)
        } else {
            None
        }
    }

    /// Whether nothing waits from one location to another.
    pub fn is_idle(&self, from: Loc, to: Loc) -> bool
        ensures { result ≡ is_idle_queue ((state self.now).queue from to) }
    {
        match direction(self.net, from, to) {
            None => true,
            Some(place) => is_idle_at(self.queues.as_slice(), place),
        }
    }

    /// How many messages wait from one location to another.
    pub fn waiting(&self, from: Loc, to: Loc) -> usize
        ensures { result ≡ length ((state self.now).queue from to) }
    {
        match direction(self.net, from, to) {
            None => 0,
            Some(place) => waiting_at(self.queues.as_slice(), place),
        }
    }

    /// The locations to which a location is linked, in order.
    pub fn neighbours(&self, at: Loc) -> &[Loc]
        requires { IsTrue (is_location self.now.net.now at) }
        ensures { result.now ≡ neighbours self.now.net.now at }
    {
        self.near[at.number() as usize].as_slice()
    }

    /// The network.
    pub fn net(&self) -> &'a Net
        ensures { result.now ≡ self.now.net.now }
    {
        self.net
    }
}
