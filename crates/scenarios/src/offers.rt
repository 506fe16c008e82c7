//! What peers are offered in an outcome.
ghost use Rattle.std.specs.Prelude.{◌≡◌, ◌∷◌, ◌&&◌, option_map};
ghost use Rattle.net_base.specs.Network.{is_peer, is_router};
ghost use Rattle.policy_base.specs.Policies.{policy_of};
ghost use Rattle.outcome_base.specs.Outcomes.{is_live as live, offered as offered_by};
ghost use Rattle.scenarios.specs.Scenarios.{failures_of};
ghost use Rattle.scenarios.specs.Situations.{IsSituation};
ghost use Rattle.scenarios.specs.Tests.{unlooped};

use crate::situation::Situation;
use config_base::export_of;
use net_base::Loc;

// The path, if a peer isn't on it.
fn unless_on(path: &[Loc], peer: Loc) -> Option<&[Loc]>
    ensures { option_map (λ q. peer ∷ q.now) result ≡ unlooped peer path.now }
{
    if path.contains(&peer) {
        None
    } else {
        Some(path)
    }
}

impl<'a> Situation<'a> {
    // Whether the two are a router and a peer over a live link.
    fn is_live_session(&self, router: Loc, peer: Loc) -> bool
        requires { IsSituation self.now }
        ensures { result ≡ (live self.now.net.now (failures_of self.now.scenario.now) router peer && is_router self.now.net.now router && is_peer self.now.net.now peer) }
    {
        self.is_live(router, peer) && self.net.is_router(router) && self.net.is_peer(peer)
    }

    /// The path along which a router sends what it offers a peer: what the peer hears is this path with the peer in front.
    pub fn offered(&self, router: Loc, peer: Loc) -> Option<&[Loc]>
        requires { IsSituation self.now }
        ensures { option_map (λ path. peer ∷ path.now) result
            ≡ offered_by self.now.net.now (policy_of self.now.policy.now) self.now.config.now (failures_of self.now.scenario.now) self.now.scenario.now.prefix self.now.outcome.now.routes router peer }
    {
        if !self.is_live_session(router, peer) {
            return None;
        }
        let class = self.class?;
        let held = self.outcome.route_at(router)?;
        export_of(self.net, self.config, class, router, peer, held)?;
        unless_on(held.path.as_slice(), peer)
    }
}
