//! What is promised for a case.
ghost use Rattle.std.specs.Prelude.{◌≡◌, ℕ, IfOk, map};
ghost use Rattle.std.specs.List.{IsDistinct};
ghost use Rattle.graph_base.specs.Rules.{same_pair};
ghost use Rattle.graph_base.specs.Runs.{place_of};
ghost use Rattle.promises_report.specs.Telling.{IsTold, promises_in};

use crate::told::Told;
use cut_ranks::{base_tops, rank_told};
use evidence_base::CaseEvidence;
use input_output::NoMemory;
use net_base::{Loc, Net};
use reach_prune::{Way, neighbours};
use std::alloc::Global;

impl Told<'_> {
    ghost use Rattle.std.specs.Prelude.{◌≡◌};
    ghost use Rattle.promises_report.specs.Telling.{promises_in};

    /// The best rank of a router, or of its session to a peer, or none where it isn't claimed.
    pub fn rank(&self, router: Loc, peer: Option<Loc>) -> Option<u32>
        ensures { result ≡ (promises_in self.now).rank router peer }
    {
        rank_told(self.case.graph(), &self.lists, &self.tops, router, peer)
    }

    /// Whether a permitted walk passes a router.
    pub fn passes(&self, router: Loc) -> bool
        ensures { result ≡ (promises_in self.now).passes router }
    {
        match self.tops.get(router.number() as usize) {
            None => false,
            Some(top) => top.is_some(),
        }
    }
}

/// What the graph of a case tells. No node of it steps to two nodes at one location.
pub fn told_of<'a>(alloc: Global, net: &Net, case: &'a CaseEvidence) -> Result<Told<'a>, NoMemory>
    requires { IsDistinct same_pair (map (λ (s : ℕ × ℕ). (s.0, place_of case.now.graph s.1)) case.now.graph.steps) }
    ensures { IfOk result (λ told. IsTold net.now case.now (promises_in told)) }
{
    let lists = neighbours(alloc, case.graph(), Way::Forward)?;
    let tops = base_tops(alloc, net, case)?;
    Ok(Told { case, lists, tops })
}
