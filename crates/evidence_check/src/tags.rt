//! The rule of tags.
ghost use Rattle.std.specs.Prelude.{◌≡◌, ◌+◌, ◌<◌, ◌&&◌, ◌||◌, ◌++◌, ◌∷◌, [], ℕ, List, IfOk, IsTrue, MatchOption, Some, length, not};
ghost use Rattle.std.specs.List.{list_any};
ghost use Rattle.net_base.specs.Network.{asn_of as asn_at, IsNet, is_peer};
ghost use Rattle.graph_base.specs.Runs.{place_of};
ghost use Rattle.config_base.specs.Lines.{same_tag};
ghost use Rattle.evidence_base.specs.Made.{PlainCaseEvidence, case_at, tag_at};
ghost use Rattle.evidence_verdicts.specs.Rules.{KeepsTag};
ghost use Rattle.evidence_verdicts.specs.Verdicts.{IsFirstAt};
ghost use Rattle.evidence_check.specs.TagRule.{AreSeen, is_right_tag};

use config_base::NO_TAG;
use evidence_base::CaseEvidence;
use indexmap::IndexSet;
use input_output::NoMemory;
use net_base::{Loc, Net, Tag, known_net, tag_fits};
use std::alloc::Global;

/// A node of a case.
#[derive(Clone, Copy, Debug, PartialEq, Eq)]
pub struct CaseNode {
    /// The number of the case, from 1.
    pub case: u32,
    /// The number of the node, from 0.
    pub node: u32,
}

// The AS number of a location, 0 where the network has no such location.
fn asn_of(net: &Net, at: Loc) -> u32
    ensures { result ≡ asn_at net.now at }
{
    if net.is_router(at) || net.is_peer(at) {
        net.site(at).asn
    } else {
        0
    }
}

// Whether the tag of a node is right by itself: it has the AS number of the node's router, and at a peer there is none.
fn is_right(net: &Net, at: Loc, tag: Tag) -> bool
    ensures { result ≡ is_right_tag net.now at tag }
{
    if net.is_peer(at) {
        tag == NO_TAG
    } else {
        tag_fits(tag) && tag.asn == asn_of(net, at)
    }
}

// Puts a tag behind those that were seen, unless it is there; says whether it is new.
fn note(seen: &mut IndexSet<Tag>, tag: Tag) -> Result<bool, NoMemory>
    ensures fresh { IfOk result (λ new. new ≡ not (list_any (same_tag tag) seen.old.keys)) }
    ensures added { IfOk result (λ new. IsTrue new → seen.new.keys ≡ seen.old.keys ++ tag ∷ []) }
{
    Ok(seen.insert(tag)?)
}

// How many nodes the graph of a case has.
fn node_count(case: &CaseEvidence) -> u32
    ensures { result ≡ length case.now.graph.nodes }
{
    case.graph().nodes().len() as u32
}

// The tag of a node.
fn tag_of(case: &CaseEvidence, node: u32) -> Tag
    ensures { result ≡ tag_at case.now node }
{
    case.tags().get(node as usize).copied().unwrap_or(NO_TAG)
}

// Whether the tag of a node is right by itself and, at a router, was not seen before; then it is seen from now on.
fn is_kept(
    net: &Net,
    case: &CaseEvidence,
    node: u32,
    seen: &mut IndexSet<Tag>,
) -> Result<bool, NoMemory>
    requires { node < length case.now.graph.nodes }
    ensures kept { IfOk result
        (λ kept. kept
        ≡ (is_right_tag net.now (place_of case.now.graph node) (tag_at case.now node)
        && (is_peer net.now (place_of case.now.graph node) || not (list_any (same_tag (tag_at case.now node)) seen.old.keys)))) }
    ensures at_peer { IfOk result (λ kept. IsTrue kept → IsTrue (is_peer net.now (place_of case.now.graph node)) → seen.new.keys ≡ seen.old.keys) }
    ensures at_router { IfOk result (λ kept. IsTrue kept → IsTrue (not (is_peer net.now (place_of case.now.graph node))) → seen.new.keys ≡ seen.old.keys ++ tag_at case.now node ∷ []) }
{
    let at = case.graph().location(node);
    let tag = tag_of(case, node);
    if !is_right(net, at, tag) {
        return Ok(false);
    }
    if net.is_peer(at) {
        return Ok(true);
    }
    note(seen, tag)
}

// The first node of a case whose tag breaks the rule.
fn node_fault(
    net: &Net,
    case: &CaseEvidence,
    seen: &mut IndexSet<Tag>,
) -> Result<Option<u32>, NoMemory>
    requires { IsNet net.now }
    ensures { (cs : List PlainCaseEvidence) (k : ℕ) → case_at cs k ≡ Some case.now → AreSeen net.now cs k 0 seen.old.keys
        → IfOk result (λ o. MatchOption o (AreSeen net.now cs (k + 1) 0 seen.new.keys) (λ n. IsFirstAt (λ i p _. KeepsTag net.now cs i p) k n 0)) }
{
    for node in 0..node_count(case) {
        if !is_kept(net, case, node, seen)? {
            return Ok(Some(node));
        }
    }
    Ok(None)
}

/// The number of the case at a place. Cases past the numbers of 32 bits are answered by want of memory.
pub(crate) fn case_number(place: usize) -> Result<u32, NoMemory>
    ensures { IfOk result (λ number. number ≡ place + 1) }
{
    if place >= u32::MAX as usize {
        return Err(NoMemory);
    }
    Ok(place as u32 + 1)
}

// How many nodes all cases have. No clause says it: with less room the tags that were seen grow.
fn all_nodes(evidence: &[CaseEvidence]) -> usize {
    let mut count = 0usize;
    for case in evidence {
        count = count.saturating_add(case.graph().nodes().len());
    }
    count
}

/// The first node, in order of the cases, that has no tag of its router alone, or has one at a peer.
pub fn tag_fault(
    alloc: Global,
    net: &Net,
    evidence: &[CaseEvidence],
) -> Result<Option<CaseNode>, NoMemory>
    ensures { IfOk result (λ o. MatchOption o ((k n : ℕ) → KeepsTag net.now evidence.now k n) (λ at. IsFirstAt (λ k n _. KeepsTag net.now evidence.now k n) at.case at.node 0)) }
{
    known_net(net);
    let mut seen = IndexSet::with_capacity(alloc, all_nodes(evidence))?;
    for place in 0..evidence.len() {
        if let Some(node) = node_fault(net, &evidence[place], &mut seen)? {
            let case = case_number(place)?;
            return Ok(Some(CaseNode { case, node }));
        }
    }
    Ok(None)
}
