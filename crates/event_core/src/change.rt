//! Changes of a world, and how each is undone.
ghost use Rattle.std.specs.Prelude.{◌≡◌, IsTrue};
ghost use Rattle.net_base.specs.Network.{is_router, linked};
ghost use Rattle.event_core.specs.Changes.{IsSwap, changed, is_on as is_on_net, with_change};
ghost use Rattle.event_state.specs.States.{setting, state};

use config_base::Route;
use event_state::{Queue, World};
use net_base::{Loc, Net};

/// Something that stands in a world, and what is to stand there.
#[derive(Drop)]
pub(crate) enum Change {
    /// Whether a router is down.
    Down(Loc, bool),
    /// Whether a link is down.
    Cut(Loc, Loc, bool),
    /// Whether the session of a router and a peer is silent.
    Silent(Loc, Loc, bool),
    /// The route that a router holds.
    Holds(Loc, Option<Route>),
    /// What the second has heard from the first.
    Heard(Loc, Loc, Option<Route>),
    /// What the first last queued to the second.
    Queued(Loc, Loc, Option<Route>),
    /// What waits from the first to the second.
    Waiting(Loc, Loc, Queue),
    /// The last message that waits from the first to the second is taken back.
    TakenBack(Loc, Loc),
}

// Whether what changes stands on the network.
fn is_on(net: &Net, change: &Change) -> bool
    ensures { result ≡ is_on_net net.now change.now }
{
    match change {
        Change::Down(at, _) | Change::Holds(at, _) => net.is_router(*at),
        Change::Cut(a, b, _)
        | Change::Silent(a, b, _)
        | Change::Heard(a, b, _)
        | Change::Queued(a, b, _)
        | Change::Waiting(a, b, _)
        | Change::TakenBack(a, b) => net.linked(*a, *b),
    }
}

/// Makes a change of what stands on the network, and gives the change that undoes it.
pub(crate) fn put(world: &mut World<'_>, change: Change) -> Change
    requires { IsTrue (is_on_net world.old.net.now change) }
    ensures world { state world.new ≡ with_change change (state world.old) }
    ensures setting { setting world.new ≡ setting world.old }
    ensures back { IsSwap change → with_change result (state world.new) ≡ state world.old }
    ensures place { is_on_net world.old.net.now result ≡ is_on_net world.old.net.now change }
{
    match change {
        Change::Down(at, down) => {
            let before = world.is_down(at);
            world.set_down(at, down);
            Change::Down(at, before)
        }
        Change::Cut(a, b, cut) => {
            let before = world.is_cut(a, b);
            world.set_cut(a, b, cut);
            Change::Cut(a, b, before)
        }
        Change::Silent(router, peer, silent) => {
            let before = world.is_silent(router, peer);
            world.set_silent(router, peer, silent);
            Change::Silent(router, peer, before)
        }
        Change::Holds(at, route) => {
            let mut before = route;
            world.swap_route(at, &mut before);
            Change::Holds(at, before)
        }
        Change::Heard(from, to, message) => {
            let mut before = message;
            world.swap_heard(from, to, &mut before);
            Change::Heard(from, to, before)
        }
        Change::Queued(from, to, message) => {
            let mut before = message;
            world.swap_queued(from, to, &mut before);
            Change::Queued(from, to, before)
        }
        Change::Waiting(from, to, queue) => {
            let mut before = queue;
            world.swap_queue(from, to, &mut before);
            Change::Waiting(from, to, before)
        }
        Change::TakenBack(from, to) => {
            world.take_back(from, to);
            Change::TakenBack(from, to)
        }
    }
}

/// Undoes a change, which is passed over where nothing of it stands on the network.
pub(crate) fn undo(world: &mut World<'_>, change: Change)
    ensures world { state world.new ≡ changed world.old.net.now change (state world.old) }
    ensures setting { setting world.new ≡ setting world.old }
{
    if is_on(world.net(), &change) {
        put(world, change);
    }
}
