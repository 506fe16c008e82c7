//! What cuts besides a scenario's failures change and move.
ghost use Rattle.std.specs.Prelude.{IfOk};
ghost use Rattle.policy_base.specs.Policies.{IsPolicyOf, policy_of};
ghost use Rattle.evidence_law.specs.Passes.{Passes};
ghost use Rattle.scenarios.specs.Scenarios.{failures_of};
ghost use Rattle.scenarios.specs.Situations.{IsSituation};
ghost use Rattle.whatif_report.specs.Cutting.{AreCutsOf};
ghost use Rattle.whatif_report.specs.Moves.{IsSettledOutcome, IsWhatIf};
ghost use Rattle.whatif_report.specs.Settling.{AreMoves, IsSettledNet};

use crate::settled::SettledNet;
use evidence_base::Evidence;
use impact_law::{CutRow, Moves, WhatIf};
use impact_report::impact;
use input_output::NoMemory;
use net_base::{List, known_net, known_prefix};
use scenarios::{Situation, Survivors};
use settled_outcome::open_case;
use std::alloc::Global;

// Whom the cut of each row moves.
fn moves_of(
    alloc: Global,
    settled: &SettledNet<'_, '_>,
    rows: &[CutRow],
) -> Result<List<Moves>, NoMemory>
    requires settled { IsSettledNet settled.now }
    requires cuts { AreCutsOf settled.now.situation.now.net.now rows.now }
    ensures { IfOk result (AreMoves settled.now.situation.now rows.now) }
{
    let mut moves = List::new(alloc);
    for row in rows {
        moves.push(settled.moves(alloc, &row.cut)?)?;
    }
    Ok(moves)
}

/// What each link and each router that lives under a scenario changes where it is dead, too, for the scenario's prefix, in the outcome to
/// which a network settles under a configuration for which the evidence passes: the sources to which it leaves another best rank, how
/// many other routers hold another route once the network has settled, and how many have another multipath set.
pub fn what_if(
    alloc: Global,
    evidence: &Evidence,
    situation: &Situation<'_>,
) -> Result<WhatIf, NoMemory>
    requires situation { IsSituation situation.now }
    requires fits { IsPolicyOf situation.now.net.now (policy_of situation.now.policy.now) }
    requires passes { Passes situation.now.net.now (policy_of situation.now.policy.now) situation.now.config.now evidence.now.cases }
    requires settled { IsSettledOutcome situation.now.net.now (policy_of situation.now.policy.now) situation.now.config.now (failures_of situation.now.scenario.now)
        situation.now.scenario.now.prefix situation.now.outcome.now.routes }
    ensures { IfOk result (IsWhatIf situation.now.net.now (policy_of situation.now.policy.now) situation.now.config.now (failures_of situation.now.scenario.now)
        situation.now.scenario.now.prefix) }
{
    known_net(situation.net);
    known_prefix(situation.scenario.prefix);
    let impact = impact(
        alloc,
        situation.net,
        situation.policy,
        evidence,
        situation.scenario,
    )?;
    let survivors = Survivors::new(situation.net, situation.scenario);
    let left = open_case(
        alloc,
        situation.net,
        situation.policy,
        evidence,
        &survivors,
        situation.scenario.prefix,
    )?;
    let settled = SettledNet {
        situation,
        evidence,
        left,
    };
    let moves = moves_of(alloc, &settled, impact.rows.as_slice())?;
    Ok(WhatIf { impact, moves })
}
