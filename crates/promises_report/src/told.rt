//! What the graph of a case tells.
ghost use Rattle.std.proofs.Props.{props};
ghost use Rattle.cut_ranks.specs.Paths.{AreStepLists};
ghost use Rattle.cut_ranks.specs.Tops.{AreNodes};

use bit_rows::NodeList;
use evidence_base::CaseEvidence;

/// The graph of a case, with the node of the greatest number at each router: its rank is that of the best path while nothing has failed.
#[derive(Drop)]
pub struct Told<'a> {
    pub(crate) case: &'a CaseEvidence,
    pub(crate) lists: Vec<NodeList>,
    pub(crate) tops: Vec<Option<u32>>,
    ghost lists_are: { AreStepLists case.now.graph lists.items } by { Prim.hlevel props },
    ghost nodes: { AreNodes case.now.graph tops.items },
}
