//! The comparison of two policies.
ghost use Rattle.std.specs.Prelude.{IfErr, IfOk, OnOk};
ghost use Rattle.policy_base.specs.Policies.{IsPolicyOf, policy_of};
ghost use Rattle.comparison_law.specs.Comparisons.{IsComparison};
ghost use Rattle.comparison_maker.specs.Refusals.{AreComparable, IsRefusedFor};

use crate::changes::compared_pairs;
use crate::graphs::BothGraphs;
use crate::refusal::ComparisonRefusal;
use comparison::Comparison;
use net_base::Net;
use policy_base::Policy;
use policy_pairs::policy_pairs;
use std::alloc::Global;

/// What two policies over one network change: all pairs of cases that prefixes have, each with what changes for it. Nothing is compiled,
/// so policies are compared, too, that the compiler refuses; but not where a limit is passed.
pub fn compare_policies(
    alloc: Global,
    net: &Net,
    old: &Policy,
    new: &Policy,
) -> Result<Comparison, ComparisonRefusal>
    requires old { IsPolicyOf net.now (policy_of old.now) }
    requires new { IsPolicyOf net.now (policy_of new.now) }
    ensures compared { IfOk result (λ found. IsComparison net.now (policy_of old.now) (policy_of new.now) found.pairs) }
    ensures within { OnOk result (AreComparable net.now (policy_of old.now) (policy_of new.now)) }
    ensures refused { IfErr result (IsRefusedFor net.now (policy_of old.now) (policy_of new.now)) }
{
    let graphs = BothGraphs::new(alloc, net, old, new)?;
    let pairs = policy_pairs(alloc, net, old, new)?;
    let pairs = compared_pairs(alloc, net, &graphs, pairs)?;
    Ok(Comparison { pairs })
}
