//! The laws of the graph of a case: it is well formed, its runs are the walks that can still be permitted, the trimmed graph is faithful,
//! and its ranks show which routers are claimed; no code.
//!
//! - `built_graphs_are_well_formed`: a built graph is over the network, and each node but the starts is entered from one with a lesser
//!   number.
//! - `runs_are_walks_that_are_not_dead`: a walk has a run exactly where some alternative can still be met all along, and the run ends in
//!   the node of where it stands.
//! - `trimmed_graphs_are_faithful`: what is left, where only nodes from which a rank can be reached are kept, has a run for exactly the
//!   walks that are a suffix of a permitted one, and their ranks.
//! - `claimed_routers_are_ranked`: the routers that a policy claims are read off the graph, as those at which a node has a rank. So nobody
//!   searches for permitted walks to tell who is claimed.
//!
//! They speak of any graph that is built of a case (`IsBuilt`) or faithful to it, whoever made it. So they hold of the graph that a
//! compiler makes and of the one that a judge of evidence makes anew, and the graph that evidence brings is compared with that.
//!
//! It knows nothing of any crate that compiles.
#![tactic(auto)]

ghost use Rattle.std.specs.Prelude.{◌≡◌, ◌↔◌, ◌<◌, ◌≤◌, ◌∷◌, ℕ, IsSome, IsTrue, List, Some, is_some, length, slice_get};
ghost use Rattle.net_base.specs.Network.{IsNet, PlainNet};
ghost use Rattle.net_base.specs.Sets.{holds};
ghost use Rattle.policy_base.specs.declared.case.Case.{Case};
ghost use Rattle.policy_base.specs.Meaning.{rank_of};
ghost use Rattle.policy_base.specs.Policies.{PlainStatement};
ghost use Rattle.path_exprs.specs.Forward.{expressions};
ghost use Rattle.graph_base.specs.Graphs.{IsGraph, PlainGraph};
ghost use Rattle.graph_base.specs.Rules.{IsWellFormed};
ghost use Rattle.graph_base.specs.Ranked.{IsRankedRouter};
ghost use Rattle.graph_base.specs.Runs.{is_listener, place_of, rank_at, run};
ghost use Rattle.evidence_law.specs.Faithful.{IsFaithful, is_run_path, is_walk_to, may_start, permits};
ghost use Rattle.evidence_law.specs.Passes.{IsClaimed};
ghost use Rattle.walk_states.specs.Built.{IsBuilt, graph_over};
ghost use Rattle.path_exprs.specs.Standings.{AreStandings, Plan, Standing};
ghost use Rattle.reach_prune.specs.Trimmed.{IsTrimmed};
ghost use Rattle.policy_base.specs.CaseOrigins.{AreOrigins};
ghost use Rattle.graph_base.specs.Walks.{IsEnteredFromBefore};
ghost use Rattle.graph_base.specs.declared.graph.TheConstants.{MAX_NODES};
ghost use Rattle.graph_law.specs.Ways.{standing_after, stays_alive};

/// The graph that is built is well formed, a node that isn't a start is entered from one with a lesser number, and
/// starts and steps name nodes.
pub fn built_graphs_are_well_formed()
    ensures formed { (net : PlainNet) (plan : Plan) (g : PlainGraph) → IsBuilt net plan g → IsWellFormed net plan.origin plan.external g }
    ensures entered { (net : PlainNet) (plan : Plan) (g : PlainGraph) → IsBuilt net plan g → IsEnteredFromBefore g }
    ensures lists { (net : PlainNet) (plan : Plan) (g : PlainGraph) → IsBuilt net plan g → length g.nodes ≤ MAX_NODES → IsGraph g }
{}

/// In the graph that is built a walk to an origin, or an origin alone, has a run exactly where some alternative can
/// still be met all along; the run ends in the node of the path's first place and of what is left of the
/// alternatives. No other path has a run, and each node ends one.
pub fn runs_are_walks_that_are_not_dead()
    ensures alive { (net : PlainNet) (plan : Plan) (xs : List Standing) (path : List ℕ) → IsNet net → AreOrigins net plan.origin plan.external
        → AreStandings net plan xs → IsTrue (is_run_path net plan.origin path)
        → is_some (run (graph_over net plan xs) path) ≡ stays_alive net plan path }
    ensures lead { (net : PlainNet) (plan : Plan) (xs : List Standing) (l : ℕ) (ls : List ℕ) (n : ℕ) → AreStandings net plan xs
        → run (graph_over net plan xs) (l ∷ ls) ≡ Some n → slice_get xs n ≡ Some (standing_after net plan l ls) }
    ensures paths { (net : PlainNet) (plan : Plan) (xs : List Standing) (path : List ℕ) (n : ℕ) → AreStandings net plan xs
        → run (graph_over net plan xs) path ≡ Some n → IsTrue (is_run_path net plan.origin path) }
    ensures ended { (net : PlainNet) (plan : Plan) (xs : List Standing) (n : ℕ) → AreStandings net plan xs → n < length xs
        → (path : List ℕ) × (run (graph_over net plan xs) path ≡ Some n) }
{}

/// What is left of the graph that is built, where only nodes from which a rank can be reached are kept, has a run for
/// exactly the walks that can still be permitted, and its ranks are theirs; and each of its nodes that isn't a start
/// is entered from one with a lesser number.
pub fn trimmed_graphs_are_faithful()
    ensures faithful { (net : PlainNet) (s : PlainStatement) (plan : Plan) (g t : PlainGraph) → IsNet net
        → AreOrigins net plan.origin plan.external → plan.expressions ≡ expressions net s.ranked → plan.from ≡ s.from
        → IsBuilt net plan g → IsTrimmed g t → IsFaithful net s plan.origin plan.external t }
    ensures entered { (net : PlainNet) (plan : Plan) (g t : PlainGraph) → IsBuilt net plan g → IsTrimmed g t → IsEnteredFromBefore t }
{}

/// The graph that is built of a plan is trimmed to one. That a plan has one graph is a law of `walk_states`.
pub fn trimmed_graphs_are_one()
    ensures { (net : PlainNet) (plan : Plan) (g t u : PlainGraph) → IsBuilt net plan g → IsTrimmed g t → IsTrimmed g u → t ≡ u }
{}

/// In a faithful graph of a case a path whose run ends in a node where walks may start is a walk from there to an origin, and
/// its rank is that of the node. Where the node has one, the path is permitted.
pub fn runs_have_the_ranks_of_their_nodes()
    ensures walks { (net : PlainNet) (s : PlainStatement) (c : Case) (g : PlainGraph) (r n : ℕ) (path : List ℕ) → IsGraph g
        → IsFaithful net s (holds c.origins) c.external g → place_of g n ≡ r → IsTrue (may_start (holds c.origins) s r) → run g path ≡ Some n
        → (rest : List ℕ) × (path ≡ r ∷ rest) × IsTrue (is_walk_to net (holds c.origins) path) × (rank_of net s.ranked path ≡ rank_at g n) }
    ensures permitted { (net : PlainNet) (s : PlainStatement) (c : Case) (g : PlainGraph) (r n : ℕ) (path : List ℕ) → IsGraph g
        → IsFaithful net s (holds c.origins) c.external g → place_of g n ≡ r → IsTrue (may_start (holds c.origins) s r) → run g path ≡ Some n → IsSome (rank_at g n)
        → IsTrue (permits net (holds c.origins) s path) }
{}

/// In a faithful graph of a case the routers at which a node has a rank are those that the statement claims.
pub fn claimed_routers_are_ranked()
    ensures { (net : PlainNet) (s : PlainStatement) (c : Case) (g : PlainGraph) (l : ℕ) → IsGraph g
        → IsFaithful net s (holds c.origins) c.external g → IsRankedRouter net g l ↔ IsClaimed net s c l }
{}

/// In a faithful graph of a case each node that hears has a rank.
pub fn listeners_are_ranked()
    ensures { (net : PlainNet) (s : PlainStatement) (c : Case) (g : PlainGraph) (n : ℕ) → IsGraph g
        → IsFaithful net s (holds c.origins) c.external g → n < length g.nodes → IsTrue (is_listener g n) → IsSome (rank_at g n) }
{}
