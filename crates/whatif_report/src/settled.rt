//! A network that has settled under a scenario.
use crate::cut::with_cut;
use crate::links::touched_links;
use crate::moving::{count_routers, is_off_routes, moved_routers};
use crate::opened::without_cut;
use crate::shifting::Change;
use evidence_base::Evidence;
use graph_base::Graph;
use impact_law::{Cut, Moves};
use input_output::NoMemory;
use net_base::{LocSet, known_net, known_prefix};
use scenarios::{Scenario, Situation, Survivors};
use settled_outcome::settle_open;
use std::alloc::Global;

/// The outcome to which a network settles under a scenario, with the evidence for its configuration, and what failures leave of the graph of
/// the prefix's case: a cut takes its steps from that.
#[derive(Drop)]
pub(crate) struct SettledNet<'t, 's> {
    pub(crate) situation: &'t Situation<'s>,
    pub(crate) evidence: &'t Evidence,
    pub(crate) left: Graph,
}

impl SettledNet<'_, '_> {
    ghost use Rattle.std.specs.Prelude.{◌≡◌, IfOk};
    ghost use Rattle.drain_report.specs.Uses.{IsOffRoutes};
    ghost use Rattle.whatif_report.specs.Changing.{AreMoved, IsAfter};
    ghost use Rattle.whatif_report.specs.Cutting.{IsCutOf, IsWithCut};
    ghost use Rattle.whatif_report.specs.Settling.{IsSettledNet, MovesRight, moves_in};

    // Whom a cut moves, if this is the outcome after it and these routers hold another route there.
    fn moves_to(
        &self,
        alloc: Global,
        cut: &Cut,
        after: &Situation<'_>,
        moved: &LocSet,
    ) -> Result<Moves, NoMemory>
        requires settled { IsSettledNet self.now }
        requires after { IsAfter self.now.situation.now after.now cut.now }
        requires moved { AreMoved self.now.situation.now cut.now after.now.outcome.now.routes moved.now }
        ensures { IfOk result (λ moves. moves ≡ moves_in self.now.situation.now cut.now after.now.outcome.now.routes) }
    {
        let before = self.situation;
        known_net(before.net);
        let links = touched_links(alloc, before.net, cut, moved)?;
        let change = Change {
            before,
            after,
            cut: *cut,
        };
        let shifted = change.shifted(links.as_slice());
        let routes = count_routers(before.net, moved);
        let sets = count_routers(before.net, &shifted);
        Ok(Moves { routes, sets })
    }

    // Whom a cut moves over which no other router's route goes: nothing settles anew.
    fn moves_off_routes(
        &self,
        alloc: Global,
        cut: &Cut,
        scenario: &Scenario,
    ) -> Result<Moves, NoMemory>
        requires settled { IsSettledNet self.now }
        requires scenario { IsWithCut self.now.situation.now.scenario.now cut.now scenario.now }
        requires off { IsOffRoutes self.now.situation.now.net.now self.now.situation.now.outcome.now.routes cut.now }
        ensures { IfOk result (MovesRight self.now.situation.now cut.now) }
    {
        let before = self.situation;
        known_net(before.net);
        known_prefix(before.scenario.prefix);
        let after = Situation::new(
            before.net,
            before.policy,
            before.config,
            scenario,
            before.outcome,
        );
        let nobody = LocSet::new();
        self.moves_to(alloc, cut, &after, &nobody)
    }

    // Whom any cut moves: the network settles with it.
    fn moves_anew(&self, alloc: Global, cut: &Cut, scenario: &Scenario) -> Result<Moves, NoMemory>
        requires settled { IsSettledNet self.now }
        requires scenario { IsWithCut self.now.situation.now.scenario.now cut.now scenario.now }
        ensures { IfOk result (MovesRight self.now.situation.now cut.now) }
    {
        let before = self.situation;
        known_net(before.net);
        known_prefix(before.scenario.prefix);
        let survivors = Survivors::new(before.net, scenario);
        let left = without_cut(alloc, &self.left, cut)?;
        let outcome = settle_open(
            alloc,
            before.net,
            before.policy,
            self.evidence,
            &survivors,
            left,
            before.scenario.prefix,
        )?;
        let after = Situation::new(before.net, before.policy, before.config, scenario, &outcome);
        let moved = moved_routers(before.net, cut, before.outcome, &outcome);
        self.moves_to(alloc, cut, &after, &moved)
    }

    /// Whom a cut moves where it comes besides.
    pub(crate) fn moves(&self, alloc: Global, cut: &Cut) -> Result<Moves, NoMemory>
        requires settled { IsSettledNet self.now }
        requires cut { IsCutOf self.now.situation.now.net.now cut.now }
        ensures { IfOk result (MovesRight self.now.situation.now cut.now) }
    {
        let before = self.situation;
        let scenario = with_cut(alloc, before.net, before.scenario, cut)?;
        if is_off_routes(before.net, before.outcome, cut) {
            self.moves_off_routes(alloc, cut, &scenario)
        } else {
            self.moves_anew(alloc, cut, &scenario)
        }
    }
}
