//! Laws of rows, each the contract of a function without a body.
ghost use Rattle.std.specs.Prelude.{◌≡◌, ◌<◌, ◌≤◌, ◌++◌, ◌∷◌, [], ℕ, List, None, Some, IsTrue, drop, false, length, min, set, slice_get, take};
ghost use Rattle.list_law.specs.Members.{IsIn};
ghost use Rattle.net_base.specs.Network.{PlainNet};
ghost use Rattle.net_base.specs.Prefixes.{PlainPrefix};
ghost use Rattle.net_base.specs.Sets.{holds};
ghost use Rattle.policy_base.specs.declared.case.Case.{Case};
ghost use Rattle.policy_base.specs.Governing.{is_origin, statement_of};
ghost use Rattle.policy_base.specs.Policies.{PlainPolicy, PlainStatement};
ghost use Rattle.graph_base.specs.Graphs.{IsGraph, PlainGraph};
ghost use Rattle.graph_base.specs.Walks.{IsShownWalk};
ghost use Rattle.pair_graph.specs.declared.pair.NodePair.{NodePair};
ghost use Rattle.evidence_law.specs.Faithful.{IsFaithful};
ghost use Rattle.compare_base.specs.declared.rows.Place.{Place};
ghost use Rattle.compare_base.specs.Ranks.{IsFirstWalk};
ghost use Rattle.pair_rows.specs.declared.values.FirstRow.{FirstRow};
ghost use Rattle.pair_rows.specs.declared.values.Met.{Met};
ghost use Rattle.pair_rows.specs.Meetings.{AreFirst, all_mets, earlier, mets_at, rows_alone};
ghost use Rattle.pair_rows.specs.Rows.{AreCompared, AreRows, ShowsRanks, from_peer, no_graph};

/// A faithful graph of a case shows the ranks that the policy gives the walks of each prefix that has the case's statement and origins.
pub fn faithful_graphs_show_ranks()
    ensures { (net : PlainNet) (policy : PlainPolicy) (p : PlainPrefix) (s : PlainStatement) (c : Case) (g : PlainGraph) → IsGraph g
        → IsFaithful net s (holds c.origins) c.external g → statement_of policy p ≡ Some s → ((l : ℕ) → holds c.origins l ≡ is_origin net policy p l)
        → ShowsRanks net policy p g }
{}

/// Where no statement governs a prefix, or nothing originates it, the graph without nodes does.
pub fn no_graph_shows_no_walk()
    ensures ungoverned { (net : PlainNet) (policy : PlainPolicy) (p : PlainPrefix) → statement_of policy p ≡ None → ShowsRanks net policy p no_graph }
    ensures unoriginated { (net : PlainNet) (policy : PlainPolicy) (p : PlainPrefix) → ((l : ℕ) → is_origin net policy p l ≡ false) → ShowsRanks net policy p no_graph }
{}

/// Where two graphs show the ranks that two policies give, the rows that are met at a place in the graph of pairs are those of the place.
pub fn met_rows_are_those_of_walks()
    ensures { (net : PlainNet) (old new : PlainPolicy) (p : PlainPrefix) (g h both : PlainGraph) (pairs : List NodePair) (place : Place) (rows : List FirstRow)
        → AreCompared net old new p g h pairs both → AreFirst (mets_at (all_mets g h pairs both) place) rows → AreRows net old new p place (rows_alone rows) }
{}

/// And the least node with which a row is met there shows the first walk of the place that has it, from the peer where the place is a
/// session.
pub fn least_nodes_show_first_walks()
    ensures within { (net : PlainNet) (old new : PlainPolicy) (p : PlainPrefix) (g h both : PlainGraph) (pairs : List NodePair) (place : Place) (rows : List FirstRow) (x : FirstRow)
        → AreCompared net old new p g h pairs both → AreFirst (mets_at (all_mets g h pairs both) place) rows → IsIn rows x → x.node < length both.nodes }
    ensures first { (net : PlainNet) (old new : PlainPolicy) (p : PlainPrefix) (g h both : PlainGraph) (pairs : List NodePair) (place : Place) (rows : List FirstRow) (x : FirstRow)
        (walk : List ℕ) → AreCompared net old new p g h pairs both → AreFirst (mets_at (all_mets g h pairs both) place) rows → IsIn rows x → IsShownWalk both x.node walk
        → IsFirstWalk net old new p place.router place.peer x.row (from_peer place.peer walk) }
{}

/// A row that is met is noted by putting it between the earlier rows and the later ones, or, where it is there, by keeping the lesser node.
pub fn rows_are_noted_one_by_one()
    ensures none { AreFirst [] [] }
    ensures new { (mets : List Met) (rows : List FirstRow) (met : Met) (place : ℕ) → AreFirst mets rows → place ≤ length rows
        → ((i : ℕ) (x : FirstRow) → i < place → slice_get rows i ≡ Some x → IsTrue (earlier x.row met.row))
        → ((x : FirstRow) → slice_get rows place ≡ Some x → IsTrue (earlier met.row x.row))
        → AreFirst (mets ++ met ∷ []) (take place rows ++ record { row = met.row; node = met.node } ∷ drop place rows) }
    ensures known { (mets : List Met) (rows : List FirstRow) (met : Met) (place : ℕ) (x : FirstRow) → AreFirst mets rows → slice_get rows place ≡ Some x → x.row ≡ met.row
        → AreFirst (mets ++ met ∷ []) (set rows place (record { row = x.row; node = min x.node met.node })) }
{}
