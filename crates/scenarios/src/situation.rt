//! An outcome with what it is of.
ghost use Rattle.std.specs.Prelude.{◌≡◌};
ghost use Rattle.outcome_base.specs.Outcomes.{is_dead as dead, is_live as live};
ghost use Rattle.policy_base.specs.Governing.{is_origin as origin};
ghost use Rattle.policy_base.specs.Policies.{policy_of};
ghost use Rattle.scenarios.specs.Scenarios.{failures_of};
ghost use Rattle.scenarios.specs.Situations.{IsSituation};

use crate::origins::origins_at;
use crate::outcome::Outcome;
use crate::scenario::Scenario;
use crate::survivors::Survivors;
use config_base::{Config, class_of};
use net_base::{Loc, LocSet, Net};
use policy_base::Policy;

/// An outcome of a configured network under the failures of a scenario. The class and the origins of the scenario's prefix
/// and what fails are found once, and no memory is taken.
#[derive(Drop)]
pub struct Situation<'a> {
    /// The network.
    pub net: &'a Net,
    /// The policy, by whose items prefixes are originated.
    pub policy: &'a Policy,
    /// The configuration, by whose lines routers speak.
    pub config: &'a Config,
    /// The prefix, and what has failed.
    pub scenario: &'a Scenario,
    /// What each router holds.
    pub outcome: &'a Outcome,
    /// The class of the prefix in the configuration, from 1, or none.
    pub class: Option<u32>,
    /// The origins of the prefix.
    pub origins: LocSet,
    /// What the failures leave of the network.
    pub survivors: Survivors,
}

impl<'a> Situation<'a> {
    /// An outcome of a configured network under the failures of a scenario.
    pub fn new(
        net: &'a Net,
        policy: &'a Policy,
        config: &'a Config,
        scenario: &'a Scenario,
        outcome: &'a Outcome,
    ) -> Situation<'a>
        ensures rules { IsSituation result }
        ensures net { result.net.now ≡ net.now }
        ensures policy { result.policy.now ≡ policy.now }
        ensures config { result.config.now ≡ config.now }
        ensures scenario { result.scenario.now ≡ scenario.now }
        ensures outcome { result.outcome.now ≡ outcome.now }
    {
        Situation {
            net,
            policy,
            config,
            scenario,
            outcome,
            class: class_of(config, scenario.prefix),
            origins: origins_at(net, policy, scenario.prefix),
            survivors: Survivors::new(net, scenario),
        }
    }

    /// Whether a location is dead.
    pub fn is_dead(&self, at: Loc) -> bool
        requires { IsSituation self.now }
        ensures { result ≡ dead (failures_of self.now.scenario.now) at }
    {
        self.survivors.is_dead(at)
    }

    /// Whether a location is an origin of the prefix.
    pub fn is_origin(&self, at: Loc) -> bool
        requires { IsSituation self.now }
        ensures { result ≡ origin self.now.net.now (policy_of self.now.policy.now) self.now.scenario.now.prefix at }
    {
        self.origins.holds(at)
    }

    /// Whether two locations are linked, and they and their link live.
    pub fn is_live(&self, a: Loc, b: Loc) -> bool
        requires { IsSituation self.now }
        ensures { result ≡ live self.now.net.now (failures_of self.now.scenario.now) a b }
    {
        self.survivors.is_live(self.net, a, b)
    }
}
