//! The steps and the starts of all cases.
ghost use Rattle.std.specs.List.{All};
ghost use Rattle.std.specs.Prelude.{◌≡◌, ◌<◌, ◌^◌, ◌++◌, ℕ, IfOk, OnOk, Some, length, map, slice_get};
ghost use Rattle.graph_base.specs.Graphs.{IsGraph};
ghost use Rattle.evidence_base.specs.Made.{PlainCaseEvidence};
ghost use Rattle.config_maker.specs.Hops.{HasPref, hop_of as plain_hop, hops_from, announced_of, announced_at, announced_by, announced_from};

use crate::hop::{Announced, Hop};
use evidence_base::CaseEvidence;
use graph_base::Graph;
use net_base::{Loc, Prefix, Tag};
use std::alloc::{AllocError, Global};

// A step of the graph of a class.
fn hop_of(class: u32, graph: &Graph, numbers: &[u32], tags: &[Tag], step: (u32, u32)) -> Hop
    requires from { step.0 < length graph.now.nodes }
    requires to { step.1 < length graph.now.nodes }
    requires numbers { length numbers.now ≡ length graph.now.nodes }
    requires tags { length tags.now ≡ length graph.now.nodes }
    ensures hop { result ≡ plain_hop class graph.now numbers.now tags.now step }
    ensures fits { result.pref < 2 ^ 32 }
{
    let from = step.0 as usize;
    let to = step.1 as usize;
    Hop {
        from: graph.location(step.0),
        to: graph.location(step.1),
        class,
        tag: tags[from],
        set: tags[to],
        pref: numbers[to],
    }
}

// The steps of the graph of a class.
fn add_hops(class: u32, case: &CaseEvidence, hops: &mut Vec<Hop>) -> Result<(), AllocError>
    ensures hops { OnOk result (hops.new.items ≡ hops.old.items ++ map (plain_hop class case.now.graph case.now.numbers case.now.tags) case.now.graph.steps) }
    ensures graph { IsGraph case.now.graph }
    ensures fits { OnOk result (All HasPref hops.old.items → All HasPref hops.new.items) }
{
    let graph = case.graph();
    for step in graph.steps() {
        hops.push(hop_of(class, graph, case.prefs(), case.tags(), *step))?;
    }
    Ok(())
}

// How many steps all cases have. No clause says it: with less room the hops grow.
fn step_count(evidence: &[CaseEvidence]) -> usize {
    let mut count = 0usize;
    for case in evidence {
        count = count.saturating_add(case.graph().steps().len());
    }
    count
}

/// The steps of all cases.
pub fn all_hops(alloc: Global, evidence: &[CaseEvidence]) -> Result<Vec<Hop>, AllocError>
    requires { length evidence.now < 2 ^ 32 }
    ensures hops { IfOk result (λ hops. hops.items ≡ hops_from 1 evidence.now) }
    ensures fits { IfOk result (λ hops. All HasPref hops.items) }
    ensures graphs { OnOk result ((k : ℕ) (c : PlainCaseEvidence) → slice_get evidence.now k ≡ Some c → IsGraph c.graph) }
{
    let mut hops = Vec::with_capacity(alloc, step_count(evidence))?;
    for place in 0..evidence.len() {
        add_hops(place as u32 + 1, &evidence[place], &mut hops)?;
    }
    Ok(hops)
}

// The prefixes that a start with this place and this tag announces.
fn add_prefixes(
    class: u32,
    at: Loc,
    tag: Tag,
    prefixes: &[Prefix],
    all: &mut Vec<Announced>,
) -> Result<(), AllocError>
    ensures { OnOk result (all.new.items ≡ all.old.items ++ map (announced_of class at tag) prefixes.now) }
{
    for prefix in prefixes {
        all.push(Announced {
            at,
            class,
            prefix: *prefix,
            tag,
        })?;
    }
    Ok(())
}

// What a start announces.
fn add_start(
    class: u32,
    prefixes: &[Prefix],
    graph: &Graph,
    tags: &[Tag],
    start: u32,
    all: &mut Vec<Announced>,
) -> Result<(), AllocError>
    requires start { start < length graph.now.nodes }
    requires tags { length tags.now ≡ length graph.now.nodes }
    ensures { OnOk result (all.new.items ≡ all.old.items ++ announced_at class prefixes.now graph.now tags.now start) }
{
    add_prefixes(
        class,
        graph.location(start),
        tags[start as usize],
        prefixes,
        all,
    )
}

// What the starts of a case announce.
fn add_announced(
    class: u32,
    case: &CaseEvidence,
    all: &mut Vec<Announced>,
) -> Result<(), AllocError>
    ensures { OnOk result (all.new.items ≡ all.old.items ++ announced_by class case.now.case.prefixes case.now.graph case.now.tags) }
{
    let prefixes = case.case().prefixes.as_slice();
    let graph = case.graph();
    for start in graph.starts() {
        add_start(class, prefixes, graph, case.tags(), *start, all)?;
    }
    Ok(())
}

/// What the starts of all cases announce.
pub fn all_announced(alloc: Global, evidence: &[CaseEvidence]) -> Result<Vec<Announced>, AllocError>
    requires { length evidence.now < 2 ^ 32 }
    ensures { IfOk result (λ all. all.items ≡ announced_from 1 evidence.now) }
{
    let mut all = Vec::new(alloc);
    for place in 0..evidence.len() {
        add_announced(place as u32 + 1, &evidence[place], &mut all)?;
    }
    Ok(all)
}
