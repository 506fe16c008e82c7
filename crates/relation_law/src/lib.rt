//! The rules for the nodes of a graph as a relation between them: its greatest one, the rounds that find it, the numbers that it gives, and
//! what lines of removed pairs show; no code.
//!
//! A node is *above* another at its location, or may stand at least as high, where it may take the other's place in everybody's route
//! behind it. The rules for numbers, said of two nodes and of what stands above what, are those of a relation that is closed (`IsClosed`).
//! Of all closed relations one is the greatest. It is what is left of all pairs when rounds take no more away
//! (`rounds_end_at_the_greatest`). `gone_after` tells in which round a pair goes, from the graph, from what can be reached and from what is
//! claimed. So what is promised of a relation names no rounds.
//!
//! Where the greatest relation is total, of each two nodes at a location one is above the other. Nodes that are above each other are a
//! class. A node's number is 100 and one for each class that stands strictly lower, and these numbers meet the rules. Where the relation
//! isn't total, no numbers do (`numbers_exist_where_total`). The same holds of the rules of evidence, on well-formed graphs whose listeners
//! have ranks (`evidence_exists_where_total`).
//!
//! The rules are asked at every location, peers and origins among them, so that none of them asks what a location is. A step answers a step
//! only of its kind: one to a node that hears answers one to a node that hears, and the others answer each other. Otherwise a graph with
//! marks of both kinds at one location could have a total relation and no numbers. To have no rank is worst. The claimed routers are a set.
//!
//! A *refutation* is two nodes at one location and lines of pairs that went, so that neither of the two may be above the other. Each line's
//! reason rests on earlier lines (`specs/Reasons`). Refutations exist exactly where the relation isn't total
//! (`refutations_exist_where_not_total`), and of all of them one is chosen (`specs/Choosing`), so that there is one answer.
//!
//! It knows nothing of policies.
#![tactic(auto)]

mod refutations;

ghost use Rattle.std.specs.Prelude.{◌≡◌, ℕ, Bool, IsTrue};
ghost use Rattle.graph_base.specs.Graphs.{PlainGraph, IsGraph};
ghost use Rattle.graph_base.specs.Rules.{IsWellFormed, MeetsRules};
ghost use Rattle.net_base.specs.declared.loc.LocSet.{LocSet};
ghost use Rattle.net_base.specs.Network.{PlainNet};
ghost use Rattle.net_base.specs.Sets.{holds};
ghost use Rattle.relation_law.specs.Evidence.{AreRanked, AreRouters, at_routers};
ghost use Rattle.relation_law.specs.Numbers.{AreNumbers, number_of};
ghost use Rattle.relation_law.specs.Relations.{IsClosed, IsGreatest, IsTotal, Pair};
ghost use Rattle.relation_law.specs.Rounds.{IsReach, TakesNothingMore, gone_after, left_after};
ghost use Rattle.relation_law.specs.Views.{view_of};

pub use refutations::{
    needed_lines_refute, refutation_is_one, refutations_exist_where_not_total,
    refuted_graphs_have_no_numbers, refuted_pairs_are_not_left,
};

/// Where a round takes nothing more away, what is left is the greatest relation.
pub fn rounds_end_at_the_greatest()
    ensures { (g : PlainGraph) (claimed : LocSet) (reach : ℕ → ℕ → Bool) (rounds : ℕ) → IsReach (view_of g claimed) reach → TakesNothingMore (view_of g claimed) reach rounds
        → IsGreatest (view_of g claimed) (left_after (view_of g claimed) reach rounds) }
{}

/// A pair that has gone in both directions after some round shows that no closed relation is total, nor so the greatest.
pub fn open_pairs_leave_no_total_relation()
    ensures { (g : PlainGraph) (claimed : LocSet) (reach r : ℕ → ℕ → Bool) (rounds m n : ℕ) → IsReach (view_of g claimed) reach → IsClosed (view_of g claimed) r → Pair (view_of g claimed) m n
        → IsTrue (gone_after (view_of g claimed) reach rounds m n) → IsTrue (gone_after (view_of g claimed) reach rounds n m) → ¬ IsTotal (view_of g claimed) r }
{}

/// There is one greatest relation.
pub fn greatest_relation_is_one()
    ensures { (g : PlainGraph) (claimed : LocSet) (r s : ℕ → ℕ → Bool) → IsGreatest (view_of g claimed) r → IsGreatest (view_of g claimed) s → (m n : ℕ) → r m n ≡ s m n }
{}

/// Numbers that meet the rules of the relation exist exactly where the greatest relation is total, and then
/// the class counts are such numbers.
pub fn numbers_exist_where_total()
    ensures only { (g : PlainGraph) (claimed : LocSet) (r : ℕ → ℕ → Bool) (number : ℕ → ℕ) → IsGreatest (view_of g claimed) r → AreNumbers (view_of g claimed) number → IsTotal (view_of g claimed) r }
    ensures counts { (g : PlainGraph) (claimed : LocSet) (r : ℕ → ℕ → Bool) → IsGreatest (view_of g claimed) r → IsTotal (view_of g claimed) r
        → AreNumbers (view_of g claimed) (number_of (view_of g claimed).size r) }
{}

/// Numbers of the relation meet the rules of evidence. On a graph that is well formed, and whose listeners
/// have ranks, no other numbers do.
pub fn rules_of_evidence_are_those_of_the_relation()
    ensures numbers { (net : PlainNet) (claimed : LocSet) (external : Bool) (g : PlainGraph) (number : ℕ → ℕ) → IsGraph g → AreNumbers (view_of g claimed) number
        → MeetsRules net (λ l. IsTrue (holds claimed l)) external g number }
    ensures only { (net : PlainNet) (origin : ℕ → Bool) (external : Bool) (g : PlainGraph) (claimed : LocSet) (number : ℕ → ℕ) → IsWellFormed net origin external g → IsGraph g
        → AreRouters net claimed → AreRanked g → MeetsRules net (λ l. IsTrue (holds claimed l)) external g number → AreNumbers (view_of g claimed) number }
{}

/// Numbers that meet the rules of evidence exist exactly where the greatest relation is total: then the class
/// counts meet them, with 0 for each node that isn't at a router.
pub fn evidence_exists_where_total()
    ensures counts { (net : PlainNet) (claimed : LocSet) (external : Bool) (g : PlainGraph) (r : ℕ → ℕ → Bool) → IsGraph g → IsGreatest (view_of g claimed) r → IsTotal (view_of g claimed) r
        → MeetsRules net (λ l. IsTrue (holds claimed l)) external g (at_routers net g (number_of (view_of g claimed).size r)) }
    ensures only { (net : PlainNet) (origin : ℕ → Bool) (external : Bool) (g : PlainGraph) (claimed : LocSet) (r : ℕ → ℕ → Bool) (number : ℕ → ℕ) → IsWellFormed net origin external g
        → IsGraph g → AreRouters net claimed → AreRanked g → IsGreatest (view_of g claimed) r → MeetsRules net (λ l. IsTrue (holds claimed l)) external g number → IsTotal (view_of g claimed) r }
{}
