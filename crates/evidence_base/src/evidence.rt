//! The evidence for a configuration: a graph for each case, with a number and a tag for each node.
ghost use Rattle.std.specs.Prelude.{◌≡◌, IfOk};

use graph_base::{Graph, Prefs};
use net_base::{List, Tag};
use policy_base::Case;
use std::alloc::{AllocError, Global};
use std::marker::Model;

/// A copy of a case.
pub fn case_copy(alloc: Global, case: &Case) -> Result<Case, AllocError>
    ensures { IfOk result (λ copy. copy ≡ case.now) }
{
    Ok(Case {
        statement: case.statement,
        origins: case.origins,
        external: case.external,
        prefixes: case.prefixes.copy(alloc)?,
    })
}

/// A case with its graph, and a preference number and a tag for each node. There is one number and one tag a node,
/// the statement is counted from 1, the nodes stand at locations below 768, and no rank is 0.
#[derive(Drop)]
pub struct CaseEvidence {
    case: Case,
    graph: Graph,
    prefs: Prefs,
    tags: List<Tag>,
}

impl Model for CaseEvidence {
    ghost use Rattle.evidence_base.specs.Evidence.{IsCaseEvidence};
    ghost use Rattle.evidence_base.specs.Made.{PlainCaseEvidence};

    ghost Value = { PlainCaseEvidence };

    ghost view = { λ c. record { case = c.case; graph = c.graph; numbers = c.prefs.of; tags = c.tags } };

    ghost invariant = { λ c. IsCaseEvidence (record { case = c.case; graph = c.graph; numbers = c.prefs.of; tags = c.tags }) };
}

impl CaseEvidence {
    ghost use Rattle.evidence_base.specs.Evidence.{IsCaseEvidence};

    /// The evidence of these parts.
    pub fn new(case: Case, graph: Graph, prefs: Prefs, tags: List<Tag>) -> CaseEvidence
        requires { IsCaseEvidence (record { case = case; graph = graph; numbers = prefs.of; tags = tags }) }
        ensures { result ≡ record { case = case; graph = graph; numbers = prefs.of; tags = tags } }
    {
        CaseEvidence {
            case,
            graph,
            prefs,
            tags,
        }
    }

    /// The case.
    pub fn case(&self) -> &Case
        ensures case { result.now ≡ self.now.case }
        ensures rules { IsCaseEvidence self.now }
    {
        &self.case
    }

    /// The graph of its walks.
    pub fn graph(&self) -> &Graph
        ensures graph { result.now ≡ self.now.graph }
        ensures rules { IsCaseEvidence self.now }
    {
        &self.graph
    }

    /// The preference number of each node.
    pub fn prefs(&self) -> &[u32]
        ensures { result.now ≡ self.now.numbers }
    {
        self.prefs.of.as_slice()
    }

    /// The tag of each node.
    pub fn tags(&self) -> &[Tag]
        ensures { result.now ≡ self.now.tags }
    {
        self.tags.as_slice()
    }

    // A copy of the case's evidence.
    fn copy(&self, alloc: Global) -> Result<CaseEvidence, AllocError>
        ensures { IfOk result (λ copy. copy ≡ self.now) }
    {
        Ok(CaseEvidence {
            case: case_copy(alloc, &self.case)?,
            graph: self.graph.copy(alloc)?,
            prefs: Prefs {
                of: self.prefs.of.copy(alloc)?,
            },
            tags: self.tags.copy(alloc)?,
        })
    }
}

/// The evidence for a configuration: that of each case, in the order of the cases.
#[derive(Drop)]
pub struct Evidence {
    /// The evidence of each case. That of class k stands at place k - 1.
    pub cases: List<CaseEvidence>,
}

impl Evidence {
    /// A copy of the evidence.
    pub fn copy(&self, alloc: Global) -> Result<Evidence, AllocError>
        ensures { IfOk result (λ copy. copy ≡ self.now) }
    {
        let mut cases = List::new(alloc);
        for case in self.cases.as_slice() {
            cases.push(case.copy(alloc)?)?;
        }
        Ok(Evidence { cases })
    }
}
