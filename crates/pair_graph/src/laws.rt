//! Laws of graphs in order, each the contract of a function without a body.
ghost use Rattle.std.specs.Prelude.{◌≡◌, ◌⊎◌, ◌<◌, ℕ, Bool, IsTrue, List, Some, false, slice_get};
ghost use Rattle.graph_base.specs.Graphs.{IsGraph, PlainGraph};
ghost use Rattle.graph_base.specs.Runs.{run};
ghost use Rattle.graph_base.specs.Walks.{IsEnteredFromBefore, IsShownWalk};
ghost use Rattle.pair_graph.specs.declared.pair.NodePair.{NodePair as PlainPair};
ghost use Rattle.pair_graph.specs.Made.{IsPairGraph};
ghost use Rattle.pair_graph.specs.Order.{ComesBefore, IsInOrder};
ghost use Rattle.pair_graph.specs.Pairs.{run_pair};
ghost use Rattle.pair_graph.specs.Room.{HasPairSteps, PassesRoom};

/// In a graph in order nodes are shown by walks in the order of their numbers.
pub fn shown_walks_are_in_order()
    ensures { (g : PlainGraph) (m n : ℕ) (walk other : List ℕ) → IsInOrder g → m < n → IsShownWalk g m walk → IsShownWalk g n other
        → ComesBefore walk other }
{}

/// And a node is shown by the first of the shortest walks to it.
pub fn shown_walk_is_first()
    ensures { (g : PlainGraph) (n : ℕ) (walk other : List ℕ) → IsGraph g → IsInOrder g → IsEnteredFromBefore g → IsShownWalk g n walk
        → run g other ≡ Some n → (walk ≡ other) ⊎ ComesBefore walk other }
{}

/// So the first node of which something is so shows the first of the shortest walks of which it is so, whatever that may be.
pub fn first_nodes_show_first_walks()
    ensures { (g h p : PlainGraph) (pairs : List PlainPair) (is_so : PlainPair → Bool) (n : ℕ) (y : PlainPair) (walk other : List ℕ)
        → IsGraph p → IsPairGraph g h pairs p → IsShownWalk p n walk
        → ((m : ℕ) (z : PlainPair) → m < n → slice_get pairs m ≡ Some z → is_so z ≡ false)
        → run_pair g h other ≡ Some y → IsTrue (is_so y) → (walk ≡ other) ⊎ ComesBefore walk other }
{}

/// The count of steps of the graph of pairs is one thing: the two graphs determine it. It is more than every room that they pass.
pub fn steps_are_counted_once()
    ensures one { (g h : PlainGraph) (m n : ℕ) → HasPairSteps g h m → HasPairSteps g h n → m ≡ n }
    ensures room { (g h : PlainGraph) (count room : ℕ) → HasPairSteps g h count → PassesRoom g h room → room < count }
{}
