//! What a relation tells of the rules of evidence: the contract of a function without a body.
ghost use Rattle.std.specs.Prelude.{ℕ, Bool, IsTrue};
ghost use Rattle.graph_base.specs.Graphs.{PlainGraph, IsGraph};
ghost use Rattle.graph_base.specs.Rules.{IsWellFormed, MeetsRules};
ghost use Rattle.net_base.specs.Network.{PlainNet};
ghost use Rattle.net_base.specs.Sets.{holds};
ghost use Rattle.relation_law.specs.Evidence.{AreRanked, AreRouters};
ghost use Rattle.state_simulation.specs.Held.{HasEach, IsRelationOf, PlainRelation};

/// No numbers meet the rules of evidence where the relation isn't total: on a graph that is well formed, whose
/// listeners have ranks, numbers that meet them leave a direction of each two nodes at one location.
pub fn evidence_needs_a_total_relation()
    ensures { (net : PlainNet) (origin : ℕ → Bool) (external : Bool) (g : PlainGraph) (r : PlainRelation) (number : ℕ → ℕ) → IsWellFormed net origin external g → IsGraph g
        → AreRouters net r.claimed → AreRanked g → IsRelationOf g r → MeetsRules net (λ l. IsTrue (holds r.claimed l)) external g number → HasEach r }
{}
