//! The verdict on recorded routes.
ghost use Rattle.std.specs.Prelude.{◌≡◌, ◌↔◌, length, IsTrue};
ghost use Rattle.policy_base.specs.Policies.{policy_of};
ghost use Rattle.outcome_base.specs.Outcomes.{IsStable};
ghost use Rattle.scenarios.specs.Scenarios.{failures_of};
ghost use Rattle.scenarios.specs.Situations.{AreChoices, IsSituation};
ghost use Rattle.table_audit.specs.Verdicts.{IsVerdict};
ghost use Rattle.table_audit.specs.Situated.{IsFaultIn, IsVerdictIn, is_choosing_in};

use crate::AuditVerdict;
use crate::top::top_giver;
use config_base::Config;
use net_base::{Loc, Net};
use policy_base::Policy;
use scenarios::{Choices, Outcome, Scenario, Situation};

// What is wrong with the choice of a live router that is no origin.
fn choice_fault(situation: &Situation<'_>, choices: &Choices, at: Loc) -> Option<AuditVerdict>
    requires situation { IsSituation situation.now }
    requires choices { AreChoices situation.now choices.now }
    requires choosing { IsTrue (is_choosing_in situation.now at) }
    ensures { IsFaultIn situation.now at result }
{
    let top = top_giver(situation, at);
    match situation.outcome.route_at(at) {
        None => match top {
            None => None,
            Some(best) => Some(AuditVerdict::Missing(at, best.0)),
        },
        Some(route) => {
            if !choices.given.holds(at) {
                return Some(AuditVerdict::NotGiven(at));
            }
            match top {
                None => None,
                Some(best) => {
                    if route.pref < best.1 {
                        Some(AuditVerdict::Better(at, best.0, best.1))
                    } else {
                        None
                    }
                }
            }
        }
    }
}

// What is wrong at a router. Only for one that isn't settled are the links looked through.
fn fault_at(situation: &Situation<'_>, choices: &Choices, at: Loc) -> Option<AuditVerdict>
    requires situation { IsSituation situation.now }
    requires choices { AreChoices situation.now choices.now }
    ensures { IsFaultIn situation.now at result }
{
    if situation.is_settled(choices, at) {
        return None;
    }
    if situation.is_dead(at) {
        return Some(AuditVerdict::Dead(at));
    }
    if situation.is_origin(at) {
        return Some(AuditVerdict::Own(at));
    }
    choice_fault(situation, choices, at)
}

// The first router at which something is wrong.
fn first_fault(situation: &Situation<'_>) -> AuditVerdict
    requires { IsSituation situation.now }
    ensures { IsVerdictIn situation.now result }
{
    let choices = situation.choices();
    for at in 0..situation.net.routers().len() {
        if let Some(verdict) = fault_at(situation, &choices, Loc::new(at as u16)) {
            return verdict;
        }
    }
    AuditVerdict::Stable
}

/// The verdict on an outcome with one entry per router: the first router at which it isn't stable, and why. Each link is looked at
/// once, and again for the router that the verdict names; no memory is taken.
pub fn audit(
    net: &Net,
    policy: &Policy,
    config: &Config,
    scenario: &Scenario,
    outcome: &Outcome,
) -> AuditVerdict
    requires { length outcome.now.routes ≡ length net.now.routers }
    ensures verdict { IsVerdict net.now (policy_of policy.now) config.now (failures_of scenario.now) scenario.now.prefix outcome.now.routes result }
    ensures stable { (result ≡ AuditVerdict.Stable) ↔ IsStable net.now (policy_of policy.now) config.now (failures_of scenario.now) scenario.now.prefix outcome.now.routes }
{
    let situation = Situation::new(net, policy, config, scenario, outcome);
    first_fault(&situation)
}
