//! What graphs of one case have in common, each the contract of a function without a body.
ghost use Rattle.std.specs.Prelude.{◌↔◌, ℕ, Bool, IsTrue, length};
ghost use Rattle.net_base.specs.Sets.{holds};
ghost use Rattle.policy_base.specs.declared.case.Case.{Case};
ghost use Rattle.graph_base.specs.Rules.{MeetsRules};
ghost use Rattle.evidence_law.specs.Passes.{IsClaimed};
ghost use Rattle.relation_law.specs.Evidence.{at_routers};
ghost use Rattle.net_base.specs.declared.loc.LocSet.{LocSet};
ghost use Rattle.net_base.specs.Network.{PlainNet};
ghost use Rattle.policy_base.specs.Policies.{PlainStatement};
ghost use Rattle.graph_base.specs.Graphs.{PlainGraph, IsGraph};
ghost use Rattle.evidence_law.specs.Faithful.{IsFaithful};
ghost use Rattle.relation_law.specs.Numbers.{AreNumbers, number_of};
ghost use Rattle.relation_law.specs.Relations.{IsGreatest, IsTotal};
ghost use Rattle.relation_law.specs.Rounds.{IsReach};
ghost use Rattle.relation_law.specs.Views.{view_of};
ghost use Rattle.quotient_law.specs.Alike.{EndBoth, IsAlike};

/// Two faithful graphs of one statement can follow each other step by step.
pub fn faithful_graphs_are_alike()
    ensures { (net : PlainNet) (s : PlainStatement) (origin : ℕ → Bool) (external : Bool) (g q : PlainGraph) (claimed : LocSet) → IsGraph g → IsGraph q
        → IsFaithful net s origin external g → IsFaithful net s origin external q → IsAlike (view_of g claimed) (view_of q claimed) (EndBoth g q) }
{}

/// Where numbers meet the rules on a faithful graph, the greatest relation is total on each.
pub fn numbers_carry_over()
    ensures { (net : PlainNet) (s : PlainStatement) (origin : ℕ → Bool) (external : Bool) (g q : PlainGraph) (claimed : LocSet) (reach : ℕ → ℕ → Bool) (number : ℕ → ℕ) (r : ℕ → ℕ → Bool)
        → IsGraph g → IsGraph q → IsFaithful net s origin external g → IsFaithful net s origin external q
        → IsReach (view_of q claimed) reach → AreNumbers (view_of g claimed) number → IsGreatest (view_of q claimed) r → IsTotal (view_of q claimed) r }
{}

/// Where some numbers meet the rules of evidence on a faithful graph of a case, the class counts meet them on each
/// faithful graph of the case, however fine or coarse: so all of them have evidence, or none has.
pub fn evidence_carries_over()
    ensures { (net : PlainNet) (s : PlainStatement) (c : Case) (g q : PlainGraph) (claimed : LocSet) (reach : ℕ → ℕ → Bool) (number : ℕ → ℕ) (r : ℕ → ℕ → Bool)
        → IsGraph g → IsGraph q → IsFaithful net s (holds c.origins) c.external g → IsFaithful net s (holds c.origins) c.external q
        → ((l : ℕ) → IsTrue (holds claimed l) ↔ IsClaimed net s c l) → IsReach (view_of q claimed) reach → IsGreatest (view_of q claimed) r
        → MeetsRules net (IsClaimed net s c) c.external g number
        → IsTotal (view_of q claimed) r × MeetsRules net (IsClaimed net s c) c.external q (at_routers net q (number_of (length q.nodes) r)) }
{}
