//! Laws of what is built, each the contract of a function without a body.
ghost use Rattle.std.specs.Prelude.{◌≡◌, ◌≤◌, ℕ, length};
ghost use Rattle.graph_base.specs.Graphs.{PlainGraph};
ghost use Rattle.net_base.specs.Network.{PlainNet};
ghost use Rattle.walk_states.specs.Built.{IsBuilt};
ghost use Rattle.path_exprs.specs.Standings.{Plan, PassesStates};

/// One graph is built of a plan: so it isn't both within a room and past it.
pub fn one_graph_is_built()
    ensures { (net : PlainNet) (plan : Plan) (g h : PlainGraph) → IsBuilt net plan g → IsBuilt net plan h → g ≡ h }
{}

/// Where a graph with no more than so many nodes is built, walks reach no more standings.
pub fn graphs_hold_what_is_reached()
    ensures { (net : PlainNet) (plan : Plan) (g : PlainGraph) (most : ℕ) → IsBuilt net plan g → length g.nodes ≤ most
        → ¬ PassesStates net plan most }
{}
