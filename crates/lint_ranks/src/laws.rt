//! Laws of ranks, each the contract of a function without a body.
ghost use Rattle.std.specs.Prelude.{◌↔◌, ℕ};
ghost use Rattle.net_base.specs.Network.{PlainNet};
ghost use Rattle.net_base.specs.Sets.{holds};
ghost use Rattle.policy_base.specs.declared.case.Case.{Case};
ghost use Rattle.policy_base.specs.Policies.{PlainStatement};
ghost use Rattle.graph_base.specs.Graphs.{IsGraph, PlainGraph};
ghost use Rattle.evidence_law.specs.Faithful.{IsFaithful};
ghost use Rattle.lint_ranks.specs.Marks.{HasRank};
ghost use Rattle.lint_ranks.specs.Reached.{IsRankOfCase};

/// Some node of a faithful graph of a case has a rank exactly where some permitted walk of the case has it.
pub fn ranks_of_nodes_are_those_of_walks()
    ensures { (net : PlainNet) (s : PlainStatement) (c : Case) (g : PlainGraph) (k : ℕ) → IsGraph g → IsFaithful net s (holds c.origins) c.external g
        → HasRank g k ↔ IsRankOfCase net s c k }
{}
