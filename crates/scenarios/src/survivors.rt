//! What failures leave of a network.
ghost use Rattle.std.specs.Prelude.{◌≡◌};
ghost use Rattle.net_base.specs.Network.{PlainNet};
ghost use Rattle.net_base.specs.Sets.{holds};
ghost use Rattle.outcome_base.specs.Outcomes.{Failures, is_dead as dead, is_live as live};
ghost use Rattle.scenarios.specs.Scenarios.{failures_of};
ghost use Rattle.scenarios.specs.Surviving.{AreSurvivors, carries as comes_through, carries_by, live_by};

use crate::links::LinkSet;
use crate::scenario::Scenario;
use net_base::{Loc, LocSet, Net};

/// What is dead and silent in a scenario, by location and by link. A scenario's lists are gone over once, and no memory is
/// taken.
#[derive(Drop)]
pub struct Survivors {
    /// The locations that are dead.
    pub dead: LocSet,
    /// The links that are dead.
    pub cut: LinkSet,
    /// The links of the sessions in which a peer is silent.
    pub silent: LinkSet,
}

impl Survivors {
    /// What a scenario leaves of a network.
    pub fn new(net: &Net, scenario: &Scenario) -> Survivors
        ensures { AreSurvivors net.now (failures_of scenario.now) result }
    {
        Survivors {
            dead: scenario.dead,
            cut: LinkSet::of_pairs(net, scenario.dead_links.as_slice()),
            silent: LinkSet::of_sessions(net, scenario.silent.as_slice()),
        }
    }

    /// Whether a location is dead.
    pub fn is_dead(&self, at: Loc) -> bool
        ensures table { result ≡ holds self.now.dead at }
        ensures failures { (net : PlainNet) (f : Failures) → AreSurvivors net f self.now → result ≡ dead f at }
    {
        self.dead.holds(at)
    }

    /// Whether two locations are linked, and they and their link live.
    pub fn is_live(&self, net: &Net, a: Loc, b: Loc) -> bool
        ensures tables { result ≡ live_by net.now self.now a b }
        ensures failures { (f : Failures) → AreSurvivors net.now f self.now → result ≡ live net.now f a b }
    {
        net.linked(a, b) && !self.cut.has(net, a, b) && !self.is_dead(a) && !self.is_dead(b)
    }

    /// Whether what a location announces comes to another: they and their link live, and a peer isn't silent.
    pub fn carries(&self, net: &Net, from: Loc, to: Loc) -> bool
        ensures tables { result ≡ carries_by net.now self.now from to }
        ensures failures { (f : Failures) → AreSurvivors net.now f self.now → result ≡ comes_through net.now f from to }
    {
        self.is_live(net, from, to) && !(net.is_peer(from) && self.silent.has(net, to, from))
    }
}
