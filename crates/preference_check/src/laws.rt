//! Laws of the rules for preference numbers, each the contract of a function without a body.
ghost use Rattle.std.specs.Prelude.{ℕ};
ghost use Rattle.net_base.specs.Network.{PlainNet};
ghost use Rattle.graph_base.specs.Graphs.{PlainGraph};
ghost use Rattle.graph_base.specs.Rules.{KeepsLoop, KeepsStep};

/// Where the step rule holds of two nodes, the loop rule holds of them if it holds of the first with itself.
pub fn loop_rule_of_itself()
    ensures { (net : PlainNet) (g : PlainGraph) (number : ℕ → ℕ) (m n : ℕ) → KeepsStep net g number m n → KeepsLoop net g number m m → KeepsLoop net g number m n }
{}
