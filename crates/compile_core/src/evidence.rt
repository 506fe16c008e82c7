//! The evidence of a configuration.
ghost use Rattle.std.specs.Prelude.{◌≡◌, ℕ, IfOk, Some, length, slice_get};
ghost use Rattle.evidence_base.specs.Evidence.{IsCaseEvidence};
ghost use Rattle.evidence_base.specs.Made.{PlainCaseEvidence};
ghost use Rattle.compile_core.specs.Compiling.{evidence_of as plain_evidence_of};

use evidence_base::{CaseEvidence, Evidence, case_copy};
use graph_base::{Graph, Prefs};
use net_base::{List, Tag};
use policy_base::Case;
use std::alloc::{AllocError, Global};

/// The evidence of cases: each with its graph, numbers and tags. Graphs and numbers are moved.
pub fn evidence_of(
    alloc: Global,
    cases: &[Case],
    graphs: Vec<Graph>,
    prefs: Vec<Prefs>,
    tags: &[List<Tag>],
) -> Result<Evidence, AllocError>
    requires graphs { length graphs.items ≡ length cases.now }
    requires prefs { length prefs.items ≡ length cases.now }
    requires tags { length tags.now ≡ length cases.now }
    requires kept { (k : ℕ) (c : PlainCaseEvidence) → slice_get (plain_evidence_of cases.now graphs.items prefs.items tags.now) k ≡ Some c → IsCaseEvidence c }
    ensures { IfOk result (λ evidence. evidence.cases ≡ plain_evidence_of cases.now graphs.items prefs.items tags.now) }
{
    let mut all = List::new(alloc);
    for (graph, prefs) in graphs.into_iter().zip(prefs) {
        let place = all.as_slice().len();
        let case = case_copy(alloc, &cases[place])?;
        let tags = tags[place].copy(alloc)?;
        all.push(CaseEvidence::new(case, graph, prefs, tags))?;
    }
    Ok(Evidence { cases: all })
}
