//! Laws of comparisons, each the contract of a function that does nothing.
ghost use Rattle.std.specs.Prelude.{◌≡◌, ℕ, Option};
ghost use Rattle.net_base.specs.Network.{PlainNet};
ghost use Rattle.policy_base.specs.Policies.{IsPolicyOf, PlainPolicy};
ghost use Rattle.compare_base.specs.declared.cases.CasePair.{CasePair as PlainCases};
ghost use Rattle.comparison_maker.specs.Refusals.{AreStepsWithin, HasSteps, PassesSteps};
ghost use Rattle.comparison_maker.specs.Shown.{CaseGraphsShowWalks};

use pair_changes::{faithful_graphs_show_walks, no_graph_shows_no_walks};

/// The graph for the case of a prefix shows all that the policy says of the prefix's walks.
pub fn case_graphs_show_walks()
    ensures { CaseGraphsShowWalks }
{
    faithful_graphs_show_walks();
    no_graph_shows_no_walks();
}

/// A pair of cases has one count of steps. So pairs within the limit on steps aren't refused for it, and the pair with which the others pass
/// it is one.
pub fn steps_are_counted_once()
    ensures one { (net : PlainNet) (old new : PlainPolicy) (cases : PlainCases) (m n : ℕ) → HasSteps net old new cases m → HasSteps net old new cases n → m ≡ n }
    ensures within { (net : PlainNet) (old new : PlainPolicy) → IsPolicyOf net old → IsPolicyOf net new → (one other : Option ℕ) → PassesSteps net old new one other
        → ¬ AreStepsWithin net old new }
    ensures passed { (net : PlainNet) (old new : PlainPolicy) → IsPolicyOf net old → IsPolicyOf net new → (one other this that : Option ℕ) → PassesSteps net old new one other
        → PassesSteps net old new this that → (one ≡ this) × (other ≡ that) }
{}
