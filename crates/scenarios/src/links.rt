//! Sets of links.
ghost use Rattle.std.specs.Prelude.{◌≡◌, ◌&&◌, ◌||◌, ◌==◌, ℕ, false, IsTrue};
ghost use Rattle.std.specs.List.{list_any};
ghost use Rattle.net_base.specs.Network.{PlainNet, is_peer, joins, linked};
ghost use Rattle.scenarios.specs.Links.{has_link};

use net_base::{Loc, Net, known_net};

/// A set of links of a network, by their places. It takes no memory.
#[derive(Drop)]
pub struct LinkSet {
    marks: [bool; 8192],
}

impl LinkSet {
    // The set without links.
    fn new() -> LinkSet
        ensures { (net : PlainNet) (a b : ℕ) → has_link net result a b ≡ false }
    {
        LinkSet {
            marks: [false; 8192],
        }
    }

    // Puts the link of two locations into the set, if they have one.
    fn put(&mut self, net: &Net, a: Loc, b: Loc)
        ensures { (c d : ℕ) → IsTrue (linked net.now c d) → has_link net.now self.new c d ≡ (has_link net.now self.old c d || joins c d (a, b)) }
    {
        known_net(net);
        if let Some(place) = net.link_place(a, b) {
            self.marks[place] = true;
        }
    }

    /// The links of some pairs of locations, either end first. A pair that isn't linked is passed over.
    pub(crate) fn of_pairs(net: &Net, pairs: &[(Loc, Loc)]) -> LinkSet
        ensures { (a b : ℕ) → IsTrue (linked net.now a b) → has_link net.now result a b ≡ list_any (joins a b) pairs.now }
    {
        let mut set = LinkSet::new();
        for pair in pairs {
            set.put(net, pair.0, pair.1);
        }
        set
    }

    /// The links of some sessions, the router first. A pair that isn't a router and a peer of its own is passed over.
    pub(crate) fn of_sessions(net: &Net, sessions: &[(Loc, Loc)]) -> LinkSet
        ensures { (r p : ℕ) → IsTrue (linked net.now r p) → IsTrue (is_peer net.now p) → has_link net.now result r p ≡ list_any (λ s. s.0 == r && s.1 == p) sessions.now }
    {
        known_net(net);
        let mut set = LinkSet::new();
        for session in sessions {
            if net.is_peer(session.1) {
                set.put(net, session.0, session.1);
            }
        }
        set
    }

    /// Whether the set has the link of two locations.
    pub(crate) fn has(&self, net: &Net, a: Loc, b: Loc) -> bool
        ensures { result ≡ has_link net.now self.now a b }
    {
        known_net(net);
        match net.link_place(a, b) {
            None => false,
            Some(place) => self.marks[place],
        }
    }
}
