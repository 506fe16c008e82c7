//! An outcome with what it is of, and what peers are offered in it.
ghost use Rattle.std.specs.Prelude.{◌≡◌, ◌∷◌, ◌&&◌, IfOk, not, option_map};
ghost use Rattle.std.specs.List.{list_any};
ghost use Rattle.net_base.specs.Network.{is_peer, is_router, joins, linked};
ghost use Rattle.outcome_base.specs.Outcomes.{is_dead_link, is_live as live};
ghost use Rattle.scenarios.specs.Scenarios.{failures_of};
ghost use Rattle.scenarios.specs.Tests.{unlooped};
ghost use Rattle.outcome_claims.specs.Marks.{AreMarks};
ghost use Rattle.outcome_claims.specs.Offers.{told_pairs as ends_told};

use crate::marks::marks_of;
use crate::offers::told_pairs;
use evidence_base::CaseEvidence;
use net_base::{Loc, Net};
use scenarios::{Outcome, Scenario};
use std::alloc::{AllocError, Global};

// A path, if a peer isn't on it.
fn unless_on(path: &[Loc], peer: Loc) -> Option<&[Loc]>
    ensures { option_map (λ q. peer ∷ q.now) result ≡ unlooped peer path.now }
{
    if path.contains(&peer) {
        None
    } else {
        Some(path)
    }
}

/// An outcome under failures, for one prefix, with the case of the prefix. The marks of dead links, and of those over which routes go on to
/// peers, are found once.
#[derive(Drop)]
pub struct ReportedOutcome<'a> {
    /// The network.
    pub net: &'a Net,
    /// What fails.
    pub scenario: &'a Scenario,
    /// What each router holds.
    pub outcome: &'a Outcome,
    case: Option<&'a CaseEvidence>,
    cut: Vec<bool>,
    told: Vec<bool>,
    ghost of_links: { AreMarks net.now scenario.now.dead_links cut.items },
    ghost of_steps: { AreMarks net.now (ends_told outcome.now.routes (option_map (λ c. c.now) case)) told.items },
}

impl<'a> ReportedOutcome<'a> {
    ghost use Rattle.outcome_claims.specs.Reported.{case_in, offered_in};

    /// An outcome under the failures of a scenario, with the case of its prefix.
    pub fn new(
        alloc: Global,
        net: &'a Net,
        case: Option<&'a CaseEvidence>,
        scenario: &'a Scenario,
        outcome: &'a Outcome,
    ) -> Result<ReportedOutcome<'a>, AllocError>
        ensures net { IfOk result (λ s. s.net.now ≡ net.now) }
        ensures case { IfOk result (λ s. case_in s ≡ option_map (λ c. c.now) case.entry) }
        ensures scenario { IfOk result (λ s. s.scenario.now ≡ scenario.now) }
        ensures outcome { IfOk result (λ s. s.outcome.now ≡ outcome.now) }
    {
        let pairs = told_pairs(alloc, case, outcome)?;
        Ok(ReportedOutcome {
            net,
            scenario,
            outcome,
            case,
            cut: marks_of(alloc, net, scenario.dead_links.as_slice())?,
            told: marks_of(alloc, net, &pairs)?,
        })
    }

    // Whether a link joins two locations, and it lives.
    fn is_joined(&self, a: Loc, b: Loc) -> bool
        ensures { result ≡ (linked self.now.net.now a b && not (is_dead_link (failures_of self.now.scenario.now) a b)) }
    {
        match self.net.link_place(a, b) {
            None => false,
            Some(place) => !self.cut[place],
        }
    }

    // Whether two locations are linked, and they and their link live.
    fn is_live(&self, a: Loc, b: Loc) -> bool
        ensures { result ≡ live self.now.net.now (failures_of self.now.scenario.now) a b }
    {
        self.is_joined(a, b) && !self.scenario.is_dead(a) && !self.scenario.is_dead(b)
    }

    // Whether the two are a router and a peer over a live link.
    fn is_live_session(&self, router: Loc, peer: Loc) -> bool
        ensures { result ≡ (live self.now.net.now (failures_of self.now.scenario.now) router peer && is_router self.now.net.now router && is_peer self.now.net.now peer) }
    {
        self.is_live(router, peer) && self.net.is_router(router) && self.net.is_peer(peer)
    }

    // Whether a route goes on over the link of two locations, to the one of them that is a peer.
    fn goes_on(&self, a: Loc, b: Loc) -> bool
        ensures { result ≡ (linked self.now.net.now a b && list_any (joins a b) (ends_told self.now.outcome.now.routes (case_in self.now))) }
    {
        match self.net.link_place(a, b) {
            None => false,
            Some(place) => self.told[place],
        }
    }

    /// The path along which a router sends what it offers a peer: what the peer hears is this path with the peer in front.
    pub fn offered(&self, router: Loc, peer: Loc) -> Option<&[Loc]>
        ensures { option_map (λ path. peer ∷ path.now) result ≡ offered_in self.now router peer }
    {
        if !self.is_live_session(router, peer) || !self.goes_on(router, peer) {
            return None;
        }
        let route = self.outcome.route_at(router)?;
        unless_on(route.path.as_slice(), peer)
    }
}
