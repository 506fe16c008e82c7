//! Why an event is refused.
ghost use Rattle.std.specs.Prelude.{◌≡◌, ◌&&◌, Some, None, [], slice_index_or, if◌then◌else◌};
ghost use Rattle.event_base.specs.declared.event.EventFault.TheVariants.{NotDown, NotUp};
ghost use Rattle.event_base.specs.Steps.{fault_of, if_there, is_session, unless_down, unless_up, unless_waiting};
ghost use Rattle.event_state.specs.Directions.{at_direction};
ghost use Rattle.event_state.specs.States.{speakers, state};

use crate::directions::direction;
use crate::queue::Queue;
use crate::world::World;
use event_base::{Event, EventFault};
use net_base::{Loc, Net};

// Only what is up goes down.
fn unless_it_is_up(down: bool) -> Option<EventFault>
    ensures { result ≡ unless_up down }
{
    if down { Some(EventFault::NotUp) } else { None }
}

// Only what is down comes up.
fn unless_it_is_down(down: bool) -> Option<EventFault>
    ensures { result ≡ unless_down down }
{
    if down {
        None
    } else {
        Some(EventFault::NotDown)
    }
}

// What isn't there is told first.
fn where_there(there: bool, fault: Option<EventFault>) -> Option<EventFault>
    ensures { result ≡ if_there there fault }
{
    if there {
        fault
    } else {
        Some(EventFault::NoLink)
    }
}

// Only a message that waits in the queue of a place is delivered.
fn fault_at(queues: &[Queue], place: usize) -> Option<EventFault>
    ensures { result ≡ unless_waiting (slice_index_or queues.now place []) }
{
    if place < queues.len() {
        queues[place].fault()
    } else {
        Some(EventFault::NothingWaits)
    }
}

// Only a message that waits on a direction is delivered.
fn unless_it_waits(net: &Net, queues: &[Queue], from: Loc, to: Loc) -> Option<EventFault>
    ensures { result ≡ unless_waiting (at_direction net.now queues.now [] from to) }
{
    match direction(net, from, to) {
        None => Some(EventFault::NothingWaits),
        Some(place) => fault_at(queues, place),
    }
}

impl<'a> World<'a> {
    // Whether the two are a router and a peer that are linked.
    fn is_session(&self, router: Loc, peer: Loc) -> bool
        ensures { result ≡ is_session (speakers self.now) router peer }
    {
        self.net.linked(router, peer) && self.net.is_router(router) && !self.net.is_router(peer)
    }

    // Only a message that waits is delivered.
    fn unless_it_waits(&self, from: Loc, to: Loc) -> Option<EventFault>
        ensures { result ≡ unless_waiting ((state self.now).queue from to) }
    {
        unless_it_waits(self.net, self.queues.as_slice(), from, to)
    }

    /// Why an event is refused, if it is: what isn't there is judged first.
    pub fn fault(&self, event: Event) -> Option<EventFault>
        ensures { result ≡ fault_of (speakers self.now) event (state self.now) }
    {
        match event {
            Event::Deliver(a, b) => {
                where_there(self.net.linked(a, b), self.unless_it_waits(a, b))
            }
            Event::LinkDown(a, b) => {
                where_there(self.net.linked(a, b), unless_it_is_up(self.is_cut(a, b)))
            }
            Event::LinkUp(a, b) => {
                where_there(self.net.linked(a, b), unless_it_is_down(self.is_cut(a, b)))
            }
            Event::RouterDown(r) => {
                where_there(self.net.is_router(r), unless_it_is_up(self.is_down(r)))
            }
            Event::RouterUp(r) => {
                where_there(self.net.is_router(r), unless_it_is_down(self.is_down(r)))
            }
            Event::PeerSpeak(r, p) => {
                where_there(
                    self.is_session(r, p),
                    unless_it_is_down(self.is_silent(r, p)),
                )
            }
            Event::PeerSilent(r, p) => {
                where_there(self.is_session(r, p), unless_it_is_up(self.is_silent(r, p)))
            }
        }
    }
}
