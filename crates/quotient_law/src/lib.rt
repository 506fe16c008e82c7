//! The laws of graphs that are faithful to one case, and of the quotient of a graph. There is no code.
//!
//! Faithful graphs of one case follow each other step by step (`faithful_graphs_are_alike`), so numbers exist on one exactly
//! where they exist on every other (`numbers_carry_over`). So a refusal for want of numbers speaks of every such graph, and
//! evidence over one graph is evidence over another (`evidence_carries_over`). So numbers may be sought on the smallest of
//! them, and no policy changes its verdict by it.
//!
//! The quotient joins nodes of one location that no path onward tells apart: every list of locations can be followed from
//! both or from neither, and ends in equal ranks. It is faithful again (`quotients_are_faithful`). Any two of its nodes at a
//! location are told apart (`quotients_are_reduced`). A graph has one quotient (`quotients_are_one`), and every faithful
//! graph of the case maps onto it (`faithful_graphs_map_onto_reduced_ones`). The path that tells two nodes apart is shorter
//! than the quotient has nodes.
//!
//! It knows nothing of the compiler, or of how a quotient is found.
#![tactic(auto)]

mod faithful;

ghost use Rattle.std.specs.Prelude.{◌≡◌, ◌<◌, ℕ, Bool, length};
ghost use Rattle.net_base.specs.Network.{PlainNet};
ghost use Rattle.policy_base.specs.Policies.{PlainStatement};
ghost use Rattle.graph_base.specs.Graphs.{IsGraph, PlainGraph};
ghost use Rattle.graph_base.specs.Rules.{IsWellFormed};
ghost use Rattle.graph_base.specs.Walks.{IsEnteredFromBefore};
ghost use Rattle.evidence_law.specs.Faithful.{IsFaithful};
ghost use Rattle.quotient_law.specs.Alike.{EndBoth};
ghost use Rattle.node_quotient.specs.Quotient.{AreAllToldApart, IsQuotient, IsReduced};

pub use faithful::{evidence_carries_over, faithful_graphs_are_alike, numbers_carry_over};

/// The quotient of a faithful graph is faithful; and where each node that isn't a start is entered from one with a
/// lesser number, that is so in the quotient.
pub fn quotients_are_faithful()
    ensures faithful { (net : PlainNet) (s : PlainStatement) (origin : ℕ → Bool) (external : Bool) (g q : PlainGraph) → IsGraph g → IsFaithful net s origin external g
        → IsQuotient g q → IsFaithful net s origin external q }
    ensures entered { (net : PlainNet) (s : PlainStatement) (origin : ℕ → Bool) (external : Bool) (g q : PlainGraph) → IsGraph g → IsFaithful net s origin external g
        → IsQuotient g q → IsEnteredFromBefore g → IsEnteredFromBefore q }
{}

/// No two nodes of a quotient are joined: any two of one location are told apart by a path with fewer places than the
/// quotient has nodes.
pub fn quotients_are_reduced()
    ensures reduced { (net : PlainNet) (origin : ℕ → Bool) (external : Bool) (g q : PlainGraph) → IsGraph g → IsWellFormed net origin external g → IsQuotient g q → IsReduced q }
    ensures apart { (net : PlainNet) (origin : ℕ → Bool) (external : Bool) (g q : PlainGraph) → IsGraph g → IsWellFormed net origin external g → IsQuotient g q → AreAllToldApart q }
{}

/// A graph has one quotient, whose starts and steps name nodes.
pub fn quotients_are_one()
    ensures one { (g q p : PlainGraph) → IsGraph g → IsQuotient g q → IsQuotient g p → q ≡ p }
    ensures graph { (g q : PlainGraph) → IsGraph g → IsQuotient g q → IsGraph q }
{}

/// Each faithful graph of a statement maps onto a faithful graph whose nodes are told apart: each of its nodes becomes
/// one node there, by any path that ends in it.
pub fn faithful_graphs_map_onto_reduced_ones()
    ensures some { (net : PlainNet) (s : PlainStatement) (origin : ℕ → Bool) (external : Bool) (g q : PlainGraph) (a : ℕ) → IsGraph g → IsGraph q
        → IsFaithful net s origin external g → IsFaithful net s origin external q → a < length g.nodes → (m : ℕ) × EndBoth g q a m }
    ensures one { (net : PlainNet) (s : PlainStatement) (origin : ℕ → Bool) (external : Bool) (g q : PlainGraph) (a m n : ℕ) → IsGraph g → IsGraph q
        → IsFaithful net s origin external g → IsFaithful net s origin external q → IsReduced q → EndBoth g q a m → EndBoth g q a n → m ≡ n }
{}
