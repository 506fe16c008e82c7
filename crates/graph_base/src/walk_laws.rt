//! Laws of the walks by which nodes are shown, each the contract of a function without a body.
ghost use Rattle.std.specs.Prelude.{◌≡◌, ℕ, ◌<◌, Bool, List, Some, length};
ghost use Rattle.net_base.specs.Network.{PlainNet};
ghost use Rattle.graph_base.specs.Graphs.{PlainGraph};
ghost use Rattle.graph_base.specs.Rules.{IsWellFormed};
ghost use Rattle.graph_base.specs.Runs.{run};
ghost use Rattle.graph_base.specs.Walks.{IsEnteredFromBefore, IsShownWalk, shown_walk};

/// The run along the walk by which a node is shown ends in this node.
pub fn shown_walk_leads_to_its_node()
    ensures { (net : PlainNet) (origin : ℕ → Bool) (external : Bool) (g : PlainGraph) (n : ℕ) (walk : List ℕ) → IsWellFormed net origin external g
        → IsShownWalk g n walk → run g walk ≡ Some n }
{}

/// A node is shown by one walk.
pub fn shown_walk_is_unique()
    ensures { (g : PlainGraph) (n : ℕ) (one other : List ℕ) → IsShownWalk g n one → IsShownWalk g n other → one ≡ other }
{}

/// Where a start or a node with a lesser number comes before each, the function `shown_walk` gives this walk.
pub fn shown_walk_is_a_function()
    ensures { (g : PlainGraph) (n : ℕ) → IsEnteredFromBefore g → n < length g.nodes → IsShownWalk g n (shown_walk g n) }
{}
