//! When graphs show all that a policy says of a prefix, each law the contract of a function without a body.
ghost use Rattle.std.specs.Prelude.{◌≡◌, ℕ, None, Some, false};
ghost use Rattle.net_base.specs.Network.{PlainNet};
ghost use Rattle.net_base.specs.Prefixes.{PlainPrefix};
ghost use Rattle.net_base.specs.Sets.{holds};
ghost use Rattle.policy_base.specs.declared.case.Case.{Case};
ghost use Rattle.policy_base.specs.Governing.{is_origin, statement_of};
ghost use Rattle.policy_base.specs.Policies.{PlainPolicy, PlainStatement};
ghost use Rattle.graph_base.specs.Graphs.{IsGraph, PlainGraph};
ghost use Rattle.evidence_law.specs.Faithful.{IsFaithful};
ghost use Rattle.pair_rows.specs.Rows.{no_graph};
ghost use Rattle.pair_changes.specs.Shown.{ShowsWalks};

/// A faithful graph of a case shows the walks of each prefix that has the case's statement and origins.
pub fn faithful_graphs_show_walks()
    ensures { (net : PlainNet) (policy : PlainPolicy) (p : PlainPrefix) (s : PlainStatement) (c : Case) (g : PlainGraph) → IsGraph g
        → IsFaithful net s (holds c.origins) c.external g → statement_of policy p ≡ Some s → ((l : ℕ) → holds c.origins l ≡ is_origin net policy p l)
        → ShowsWalks net policy p g }
{}

/// Where no statement governs a prefix, or nothing originates it, the graph without nodes does.
pub fn no_graph_shows_no_walks()
    ensures ungoverned { (net : PlainNet) (policy : PlainPolicy) (p : PlainPrefix) → statement_of policy p ≡ None → ShowsWalks net policy p no_graph }
    ensures unoriginated { (net : PlainNet) (policy : PlainPolicy) (p : PlainPrefix) → ((l : ℕ) → is_origin net policy p l ≡ false) → ShowsWalks net policy p no_graph }
{}
