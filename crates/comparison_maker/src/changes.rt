//! What changes for each of the pairs of two policies.
ghost use Rattle.std.specs.Prelude.{IfErr, IfOk, OnOk};
ghost use Rattle.policy_base.specs.Policies.{PlainPolicy};
ghost use Rattle.policy_pairs.specs.Pairs.{ArePairs};
ghost use Rattle.comparison_law.specs.Comparisons.{IsComparison};
ghost use Rattle.comparison_maker.specs.Compared.{AreGraphsOfBoth};
ghost use Rattle.comparison_maker.specs.Refusals.{AreStepsWithin, IsRefusedFor};

use crate::graphs::BothGraphs;
use crate::limits::PAIR_STEPS;
use crate::refusal::ComparisonRefusal;
use compare_base::Pair;
use comparison::ComparedPair;
use net_base::{List, Net};
use std::alloc::Global;

/// The pairs in their order, each with what it changes. One room for steps is shared by all: each pair has what the earlier ones left.
pub(crate) fn compared_pairs(
    alloc: Global,
    net: &Net,
    graphs: &BothGraphs,
    pairs: List<Pair>,
) -> Result<List<ComparedPair>, ComparisonRefusal>
    ensures compared { (old new : PlainPolicy) → AreGraphsOfBoth net.now old new graphs.now → ArePairs net.now old new pairs → IfOk result (IsComparison net.now old new) }
    ensures within { (old new : PlainPolicy) → AreGraphsOfBoth net.now old new graphs.now → ArePairs net.now old new pairs → OnOk result (AreStepsWithin net.now old new) }
    ensures refused { (old new : PlainPolicy) → AreGraphsOfBoth net.now old new graphs.now → ArePairs net.now old new pairs → IfErr result (IsRefusedFor net.now old new) }
{
    let mut all = List::new(alloc);
    let mut room = PAIR_STEPS as u32;
    for pair in pairs.into_vec() {
        let given = graphs.change_of(alloc, net, &pair.cases, room)?;
        room -= given.used;
        all.push(ComparedPair {
            pair,
            change: given.change,
        })?;
    }
    Ok(all)
}
