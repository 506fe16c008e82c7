//! Refutations: what lines of removed pairs show.
ghost use Rattle.std.specs.Prelude.{◌≡◌, ℕ, Bool, false, IsTrue, List};
ghost use Rattle.graph_base.specs.Graphs.{PlainGraph, IsGraph};
ghost use Rattle.graph_base.specs.Refuting.{HasSingleSteps, Refutes};
ghost use Rattle.graph_base.specs.Rules.{IsWellFormed, MeetsRules};
ghost use Rattle.graph_base.specs.declared.refutation.Removed.{Removed};
ghost use Rattle.net_base.specs.declared.loc.LocSet.{LocSet};
ghost use Rattle.net_base.specs.Network.{PlainNet};
ghost use Rattle.net_base.specs.Sets.{holds};
ghost use Rattle.relation_law.specs.Evidence.{AreRanked, AreRouters};
ghost use Rattle.relation_law.specs.Choosing.{IsRefutation};
ghost use Rattle.relation_law.specs.Relations.{IsClosed, IsTotal};
ghost use Rattle.relation_law.specs.Rounds.{IsReach, left_after};
ghost use Rattle.relation_law.specs.Views.{view_of};

/// No closed relation has a direction of a refuted pair: so the greatest one isn't total.
pub fn refuted_pairs_are_not_left()
    ensures { (g : PlainGraph) (claimed : LocSet) (first second : ℕ) (lines : List Removed) (s : ℕ → ℕ → Bool) → IsGraph g → HasSingleSteps g
        → Refutes g (holds claimed) first second lines → IsClosed (view_of g claimed) s → (s first second ≡ false) × (s second first ≡ false) }
{}

/// No numbers meet the rules of evidence on a graph that is refuted.
pub fn refuted_graphs_have_no_numbers()
    ensures { (net : PlainNet) (origin : ℕ → Bool) (external : Bool) (g : PlainGraph) (claimed : LocSet) (first second : ℕ) (lines : List Removed) (number : ℕ → ℕ)
        → IsWellFormed net origin external g → IsGraph g → AreRouters net claimed → AreRanked g → Refutes g (holds claimed) first second lines
        → ¬ MeetsRules net (λ l. IsTrue (holds claimed l)) external g number }
{}

/// Where the rounds leave neither direction of some pair, there are lines that refute it.
pub fn refutations_exist_where_not_total()
    ensures { (g : PlainGraph) (claimed : LocSet) (reach : ℕ → ℕ → Bool) (rounds : ℕ) → IsGraph g → IsReach (view_of g claimed) reach
        → ¬ IsTotal (view_of g claimed) (left_after (view_of g claimed) reach rounds)
        → (first second : ℕ) × (lines : List Removed) × Refutes g (holds claimed) first second lines }
{}

/// The lines that are needed for the first open pair refute it.
pub fn needed_lines_refute()
    ensures { (g : PlainGraph) (claimed : LocSet) (reach : ℕ → ℕ → Bool) (first second : ℕ) (lines : List Removed) → IsGraph g → IsReach (view_of g claimed) reach
        → IsRefutation (view_of g claimed) reach first second lines → Refutes g (holds claimed) first second lines }
{}

/// There is one refutation of a graph.
pub fn refutation_is_one()
    ensures { (g : PlainGraph) (claimed : LocSet) (reach other : ℕ → ℕ → Bool) (a b c d : ℕ) (lines lines' : List Removed) → IsGraph g → HasSingleSteps g → IsReach (view_of g claimed) reach
        → IsReach (view_of g claimed) other → IsRefutation (view_of g claimed) reach a b lines → IsRefutation (view_of g claimed) other c d lines' → (a ≡ c) × (b ≡ d) × (lines ≡ lines') }
{}
