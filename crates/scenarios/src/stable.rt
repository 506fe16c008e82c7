//! Whether an outcome is stable.
ghost use Rattle.std.specs.Prelude.{◌≡◌, ◌↔◌, Some, IsTrue, length};
ghost use Rattle.policy_base.specs.Policies.{policy_of};
ghost use Rattle.config_base.specs.Lines.{own_route};
ghost use Rattle.outcome_base.specs.Outcomes.{Chooses, IsStable};
ghost use Rattle.scenarios.specs.Scenarios.{failures_of};
ghost use Rattle.scenarios.specs.Situations.{AreChoices, IsSettledIn, IsSituation, held_in};
ghost use Rattle.scenarios.specs.Tests.{same_route};

use crate::choice::Choices;
use crate::gifts::is_in_front;
use crate::outcome::Outcome;
use crate::scenario::Scenario;
use crate::situation::Situation;
use config_base::{Config, Route, own_tag};
use net_base::{Loc, Net, Prefix};
use policy_base::Policy;

// Whether a route is an origin's own one.
fn is_own_route(net: &Net, config: &Config, prefix: Prefix, at: Loc, route: &Route) -> bool
    ensures { result ≡ same_route (own_route net.now config.now prefix at) route.now }
{
    is_in_front(route.path.as_slice(), at, &[])
        && route.tag == own_tag(net, config, prefix, at)
        && route.pref == 0
}

impl<'a> Situation<'a> {
    /// Whether a location holds an origin's own route.
    pub fn holds_own(&self, at: Loc) -> bool
        ensures { IsTrue result ↔ (held_in self.now at ≡ Some (own_route self.now.net.now self.now.config.now self.now.scenario.now.prefix at)) }
    {
        match self.outcome.route_at(at) {
            None => false,
            Some(route) => is_own_route(self.net, self.config, self.scenario.prefix, at, route),
        }
    }

    // Whether a router's route is among what it is given, with no higher preference given, and none only where nothing is.
    fn chooses(&self, choices: &Choices, at: Loc) -> bool
        requires { AreChoices self.now choices.now }
        ensures { IsTrue result
            ↔ Chooses self.now.net.now (policy_of self.now.policy.now) self.now.config.now (failures_of self.now.scenario.now) self.now.scenario.now.prefix self.now.outcome.now.routes at }
    {
        match self.outcome.route_at(at) {
            None => !choices.outdone.holds(at),
            Some(_) => choices.given.holds(at) && !choices.outdone.holds(at),
        }
    }

    /// Whether a router holds what a stable outcome gives it.
    pub fn is_settled(&self, choices: &Choices, at: Loc) -> bool
        requires situation { IsSituation self.now }
        requires choices { AreChoices self.now choices.now }
        ensures { IsTrue result ↔ IsSettledIn self.now at }
    {
        if self.is_dead(at) {
            return self.outcome.route_at(at).is_none();
        }
        if self.is_origin(at) {
            return self.holds_own(at);
        }
        self.chooses(choices, at)
    }

    // Whether each router holds what a stable outcome gives it.
    fn are_settled(&self) -> bool
        requires situation { IsSituation self.now }
        requires size { length self.now.outcome.now.routes ≡ length self.now.net.now.routers }
        ensures { IsTrue result
            ↔ IsStable self.now.net.now (policy_of self.now.policy.now) self.now.config.now (failures_of self.now.scenario.now) self.now.scenario.now.prefix self.now.outcome.now.routes }
    {
        let choices = self.choices();
        for at in 0..self.net.routers().len() {
            if !self.is_settled(&choices, Loc::new(at as u16)) {
                return false;
            }
        }
        true
    }
}

/// Whether an outcome has one entry per router and is stable: a dead router has no route, a live origin its
/// own, and every other router one of the highest preference among what its live neighbours' routes give it,
/// and none only where they give none (RFC 4271, 9.1.1 and 9.1.2). Ties are free. Each link is looked at once, and no memory is
/// taken.
pub fn is_stable(
    net: &Net,
    policy: &Policy,
    config: &Config,
    scenario: &Scenario,
    outcome: &Outcome,
) -> bool
    ensures { IsTrue result
        ↔ ((length outcome.now.routes ≡ length net.now.routers) × IsStable net.now (policy_of policy.now) config.now (failures_of scenario.now) scenario.now.prefix outcome.now.routes) }
{
    if outcome.routes.as_slice().len() != net.routers().len() {
        return false;
    }
    let situation = Situation::new(net, policy, config, scenario, outcome);
    situation.are_settled()
}
