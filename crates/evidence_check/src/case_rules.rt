//! The rules that are judged of one case.
ghost use Rattle.std.specs.Prelude.{◌≡◌, ◌↔◌, ℕ, IfNone, IfOk, IfSome, IsSome, IsTrue, List, length};
ghost use Rattle.net_base.specs.Network.{PlainNet};
ghost use Rattle.net_base.specs.Sets.{holds};
ghost use Rattle.policy_base.specs.Policies.{PlainPolicy, PlainStatement};
ghost use Rattle.graph_base.specs.Ranked.{IsRankedRouter};
ghost use Rattle.graph_base.specs.Rules.{KeepsListener, KeepsLoop, KeepsRank, KeepsStep};
ghost use Rattle.graph_base.specs.Runs.{place_of, rank_at};
ghost use Rattle.evidence_base.specs.Made.{PlainCaseEvidence, number_at};
ghost use Rattle.evidence_law.specs.Faithful.{HasRank, HasWalks, IsFaithful};
ghost use Rattle.evidence_law.specs.Passes.{IsClaimed};
ghost use Rattle.walk_check.specs.Alike.{AreAlike, IsSingleStepped};
ghost use Rattle.walk_check.specs.Firsts.{IsFirstOrNone};
ghost use Rattle.preference_check.specs.FirstPair.{IsFirstPairOrNone};
ghost use Rattle.evidence_check.specs.CaseFaults.{IsFaultFrom};
ghost use Rattle.evidence_check.specs.CaseRules.{AreClaimedWhereRanked, IsLive, IsOfCase, LeadsToRouters};

use crate::known::known_graph;
use evidence_base::CaseEvidence;
use evidence_verdicts::CheckRule;
use graph_base::{Graph, ranked_routers};
use input_output::NoMemory;
use net_base::{LocSet, Net, known_net};
use preference_check::{listener_fault, loop_fault, rank_fault, step_fault};
use std::alloc::Global;
use walk_check::{WalkClasses, mixed_fault, walks};

/// A rule that fails in a case, with the first nodes at which it does. A node that the rule doesn't speak of is 0.
#[derive(Clone, Copy, Debug, PartialEq, Eq)]
pub struct Fault {
    /// The rule that fails.
    pub rule: CheckRule,
    /// The node at which it fails, from 0, or the first of a pair.
    pub first: u32,
    /// The second node of the pair, from 0; 0 where the rule speaks of one node or none.
    pub second: u32,
}

impl Fault {
    // The rule fails at a node.
    fn at_node(rule: CheckRule, node: u32) -> Fault
        ensures { result ≡ record { rule = rule; first = node; second = 0 } }
    {
        Fault {
            rule,
            first: node,
            second: 0,
        }
    }

    // The rule fails at a pair of nodes.
    fn at_pair(rule: CheckRule, pair: (u32, u32)) -> Fault
        ensures { result ≡ record { rule = rule; first = pair.0; second = pair.1 } }
    {
        Fault {
            rule,
            first: pair.0,
            second: pair.1,
        }
    }
}

// The routers at which a node of a case has a rank.
fn ranked_in(net: &Net, case: &CaseEvidence) -> LocSet
    ensures { (l : ℕ) → IsTrue (holds result l) ↔ IsRankedRouter net.now case.now.graph l }
{
    ranked_routers(net, case.graph())
}

// The four rules of numbers are asked for alike; each names its own rule, and hands on what that rule speaks of.
// The first pair of nodes that breaks the rule on ranks, at these routers.
fn first_by_rank(
    alloc: Global,
    net: &Net,
    case: &CaseEvidence,
    claimed: &LocSet,
) -> Result<Option<(u32, u32)>, NoMemory>
    ensures { IfOk result (IsFirstPairOrNone (KeepsRank net.now (λ l. IsTrue (holds claimed.now l)) case.now.graph (number_at case.now))) }
{
    rank_fault(alloc, net, case.graph(), case.prefs(), claimed)
}

// The first pair of nodes that breaks the rule on steps.
fn first_by_step(
    alloc: Global,
    net: &Net,
    case: &CaseEvidence,
) -> Result<Option<(u32, u32)>, NoMemory>
    ensures { IfOk result (IsFirstPairOrNone (KeepsStep net.now case.now.graph (number_at case.now))) }
{
    step_fault(alloc, net, case.graph(), case.prefs())
}

// The first pair of nodes that breaks the rule on loops.
fn first_by_loop(
    alloc: Global,
    net: &Net,
    case: &CaseEvidence,
) -> Result<Option<(u32, u32)>, NoMemory>
    requires routers { LeadsToRouters net.now case.now.graph }
    requires step { (m n : ℕ) → KeepsStep net.now case.now.graph (number_at case.now) m n }
    ensures { IfOk result (IsFirstPairOrNone (KeepsLoop net.now case.now.graph (number_at case.now))) }
{
    loop_fault(alloc, net, case.graph(), case.prefs())
}

// The first pair of nodes that breaks the rule on listeners.
fn first_by_listener(
    alloc: Global,
    net: &Net,
    case: &CaseEvidence,
) -> Result<Option<(u32, u32)>, NoMemory>
    ensures { IfOk result (IsFirstPairOrNone (KeepsListener net.now case.now.case.external case.now.graph (number_at case.now))) }
{
    let external = case.case().external;
    listener_fault(alloc, net, external, case.graph(), case.prefs())
}

// The classes by which the graph of a case has exactly the walks that can still be permitted, or None.
fn walk_classes(
    alloc: Global,
    net: &Net,
    case: &CaseEvidence,
    live: &Graph,
) -> Result<Option<WalkClasses>, NoMemory>
    requires { IsSingleStepped live.now }
    ensures alike { IfOk result (λ o. IfSome o (λ classes. AreAlike live.now case.now.graph classes)) }
    ensures single { IfOk result (λ o. IfSome o (λ _. IsSingleStepped case.now.graph)) }
    ensures holds { (s : PlainStatement) → IsLive net.now s case.now live.now
        → IfOk result (λ o. IfSome o (λ _. HasWalks net.now s (holds case.now.case.origins) case.now.case.external case.now.graph)) }
    ensures fails { (s : PlainStatement) → IsLive net.now s case.now live.now
        → IfOk result (λ o. IfNone o (¬ HasWalks net.now s (holds case.now.case.origins) case.now.case.external case.now.graph)) }
{
    walks(alloc, net, case.case(), live, case.graph())
}

// The first node of a case that hasn't the rank of each walk that ends there.
fn first_unranked(
    alloc: Global,
    case: &CaseEvidence,
    live: &Graph,
    classes: &WalkClasses,
) -> Result<Option<u32>, NoMemory>
    requires live { IsSingleStepped live.now }
    requires graph { IsSingleStepped case.now.graph }
    requires alike { AreAlike live.now case.now.graph classes.now }
    ensures { (net : PlainNet) (s : PlainStatement) → IsLive net s case.now live.now → HasWalks net s (holds case.now.case.origins) case.now.case.external case.now.graph
        → IfOk result (IsFirstOrNone (HasRank net s (holds case.now.case.origins) case.now.graph) (length case.now.graph.nodes)) }
{
    walk_check::rank_fault(alloc, live, case.graph(), classes)
}

// The first node of a case at a claimed router without a rank.
fn first_mixed(net: &Net, case: &CaseEvidence) -> Option<u32>
    ensures { (s : PlainStatement) → IsFaithful net.now s (holds case.now.case.origins) case.now.case.external case.now.graph
        → IsFirstOrNone (λ n. IsClaimed net.now s case.now.case (place_of case.now.graph n) → IsSome (rank_at case.now.graph n)) (length case.now.graph.nodes) result }
{
    mixed_fault(net, case.graph())
}

// The first of the rules on loops and on listeners that fails in a case.
fn loop_or_listener(
    alloc: Global,
    net: &Net,
    case: &CaseEvidence,
) -> Result<Option<Fault>, NoMemory>
    requires routers { LeadsToRouters net.now case.now.graph }
    requires step { (m n : ℕ) → KeepsStep net.now case.now.graph (number_at case.now) m n }
    ensures { (policy : PlainPolicy) (cs : List PlainCaseEvidence) (k : ℕ) (s : PlainStatement) → IsOfCase policy cs k s case.now → IfOk result (IsFaultFrom 7 net.now policy cs k) }
{
    if let Some(pair) = first_by_loop(alloc, net, case)? {
        return Ok(Some(Fault::at_pair(CheckRule::PrefLoop, pair)));
    }
    if let Some(pair) = first_by_listener(alloc, net, case)? {
        return Ok(Some(Fault::at_pair(CheckRule::PrefListener, pair)));
    }
    Ok(None)
}

// The first of the rules on preference numbers that fails in a case.
fn number_rules(alloc: Global, net: &Net, case: &CaseEvidence) -> Result<Option<Fault>, NoMemory>
    requires routers { LeadsToRouters net.now case.now.graph }
    ensures { (policy : PlainPolicy) (cs : List PlainCaseEvidence) (k : ℕ) (s : PlainStatement) → IsOfCase policy cs k s case.now
        → AreClaimedWhereRanked net.now s case.now → IfOk result (IsFaultFrom 5 net.now policy cs k) }
{
    let claimed = ranked_in(net, case);
    if let Some(pair) = first_by_rank(alloc, net, case, &claimed)? {
        return Ok(Some(Fault::at_pair(CheckRule::PrefRank, pair)));
    }
    if let Some(pair) = first_by_step(alloc, net, case)? {
        return Ok(Some(Fault::at_pair(CheckRule::PrefStep, pair)));
    }
    loop_or_listener(alloc, net, case)
}

// The first of the rules on ranks and on preference numbers that fails in a case whose graph has the walks of a
// faithful one.
fn rank_rules(
    alloc: Global,
    net: &Net,
    case: &CaseEvidence,
    live: &Graph,
    classes: &WalkClasses,
) -> Result<Option<Fault>, NoMemory>
    requires live { IsSingleStepped live.now }
    requires graph { IsSingleStepped case.now.graph }
    requires alike { AreAlike live.now case.now.graph classes.now }
    requires routers { LeadsToRouters net.now case.now.graph }
    ensures { (policy : PlainPolicy) (cs : List PlainCaseEvidence) (k : ℕ) (s : PlainStatement) → IsOfCase policy cs k s case.now
        → IsLive net.now s case.now live.now → HasWalks net.now s (holds case.now.case.origins) case.now.case.external case.now.graph
        → IfOk result (IsFaultFrom 3 net.now policy cs k) }
{
    known_graph(case.graph());
    if let Some(node) = first_unranked(alloc, case, live, classes)? {
        return Ok(Some(Fault::at_node(CheckRule::Ranks, node)));
    }
    if let Some(node) = first_mixed(net, case) {
        return Ok(Some(Fault::at_node(CheckRule::Mixed, node)));
    }
    number_rules(alloc, net, case)
}

/// The first of the rules from that on walks to that on listeners that fails in a case. `live` is a faithful graph of the
/// case.
pub fn case_fault(
    alloc: Global,
    net: &Net,
    case: &CaseEvidence,
    live: &Graph,
) -> Result<Option<Fault>, NoMemory>
    requires { (s : PlainStatement) × IsLive net.now s case.now live.now }
    ensures { (policy : PlainPolicy) (cs : List PlainCaseEvidence) (k : ℕ) (s : PlainStatement) → IsOfCase policy cs k s case.now
        → IsLive net.now s case.now live.now → IfOk result (IsFaultFrom 2 net.now policy cs k) }
{
    known_net(net);
    known_graph(case.graph());
    let Some(classes) = walk_classes(alloc, net, case, live)? else {
        return Ok(Some(Fault::at_node(CheckRule::Walks, 0)));
    };
    rank_rules(alloc, net, case, live, &classes)
}
