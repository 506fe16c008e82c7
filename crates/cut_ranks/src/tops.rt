//! The tops that failures leave.
ghost use Rattle.std.specs.Prelude.{IfOk};
ghost use Rattle.policy_base.specs.Policies.{PlainStatement};
ghost use Rattle.outcome_base.specs.Outcomes.{Failures, no_failures};
ghost use Rattle.evidence_law.specs.Passes.{IsCaseGraph};
ghost use Rattle.impact_law.specs.BestRanks.{AreTops};
ghost use Rattle.impact_law.specs.Cuts.{with_cut};
ghost use Rattle.cut_ranks.specs.Left.{IsOpened};
ghost use Rattle.cut_ranks.specs.Paths.{ArePaths};
ghost use Rattle.cut_ranks.specs.Tops.{AreNodes, entry_at};

use crate::best::{all_best, best_marked};
use crate::paths::Paths;
use crate::search::nodes_left;
use evidence_base::CaseEvidence;
use impact_law::Cut;
use input_output::NoMemory;
use net_base::Net;
use reach_prune::{Way, marked};
use std::alloc::{AllocError, Global};

/// At each router the node with the greatest number of those that are reached there where nothing fails.
pub fn base_tops(
    alloc: Global,
    net: &Net,
    case: &CaseEvidence,
) -> Result<Vec<Option<u32>>, AllocError>
    ensures nodes { IfOk result (λ tops. AreNodes case.now.graph tops.items) }
    ensures tops { IfOk result (λ tops. (s : PlainStatement) → IsCaseGraph net.now s case.now → AreTops net.now no_failures case.now (entry_at tops.items)) }
{
    let tops = all_best(alloc, case, net.routers().len())?;
    Ok(tops)
}

/// At each router the node with the greatest number of those that failures leave there.
pub fn tops_left(alloc: Global, net: &Net, paths: &Paths<'_>) -> Result<Vec<Option<u32>>, NoMemory>
    requires { ArePaths paths.now.case.now.graph paths.now.left paths.now.lists.items }
    ensures nodes { IfOk result (λ tops. AreNodes paths.now.left tops.items) }
    ensures tops { IfOk result (λ tops. (s : PlainStatement) (f : Failures) → IsCaseGraph net.now s paths.now.case.now → IsOpened net.now f paths.now.case.now.graph paths.now.left
        → AreTops net.now f paths.now.case.now (entry_at tops.items)) }
{
    let marks = marked(alloc, &paths.left, Way::Forward, paths.left.starts())?;
    let tops = best_marked(alloc, paths.case, net.routers().len(), &marks)?;
    Ok(tops)
}

/// At each router the node with the greatest number of those that failures and a cut besides leave there.
pub fn cut_tops(
    alloc: Global,
    net: &Net,
    paths: &Paths<'_>,
    cut: &Cut,
) -> Result<Vec<Option<u32>>, AllocError>
    requires { ArePaths paths.now.case.now.graph paths.now.left paths.now.lists.items }
    ensures nodes { IfOk result (λ tops. AreNodes paths.now.left tops.items) }
    ensures tops { IfOk result (λ tops. (s : PlainStatement) (f : Failures) → IsCaseGraph net.now s paths.now.case.now → IsOpened net.now f paths.now.case.now.graph paths.now.left
        → AreTops net.now (with_cut cut.now f) paths.now.case.now (entry_at tops.items)) }
{
    let marks = nodes_left(alloc, &paths.left, &paths.lists, cut)?;
    let tops = best_marked(alloc, paths.case, net.routers().len(), &marks)?;
    Ok(tops)
}
