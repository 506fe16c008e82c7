//! A refusal with what shows it.
ghost use Rattle.std.specs.Prelude.{◌≡◌, ◌++◌, OnOk, IfOk};
ghost use Rattle.std.specs.List.{flat_map};
ghost use Rattle.graph_base.specs.Refuting.{IsLine};
ghost use Rattle.graph_base.specs.Walks.{IsEnteredFromBefore};
ghost use Rattle.graph_base.specs.declared.refutation.Removed.{Removed as PlainRemoved};
ghost use Rattle.refusal_lines.specs.Explanations.{rank_text, reason_text, removed_line, reasons, accepted_line as line_of_accepting, explanation as explanation_of};
ghost use Rattle.refusal_lines.specs.RefusalLines.{IsOn, IsShowable, ShowsRefutation};

use crate::lines::{push_next, push_pair, push_refusal, push_router, push_shown};
use case_core::CompileRefusal;
use graph_base::{Graph, Refutation, Removed, Why};
use input_output::NoMemory;
use net_base::Net;
use std::alloc::Global;
use text_parts::{push_bytes, push_number};

// Adds a rank after a space, where there is one.
fn push_rank(text: &mut Vec<u8>, rank: Option<u32>) -> Result<(), NoMemory>
    ensures { OnOk result (text.new.items ≡ text.old.items ++ rank_text rank) }
{
    match rank {
        Some(rank) => {
            push_bytes(text, b" ")?;
            push_number(text, u64::from(rank))
        }
        None => Ok(()),
    }
}

// Adds why the first node of a pair may not stand as high as the second.
fn push_reason(
    alloc: Global,
    text: &mut Vec<u8>,
    net: &Net,
    graph: &Graph,
    line: &Removed,
) -> Result<(), NoMemory>
    requires on { IsOn graph.now line.now }
    requires entered { IsEnteredFromBefore graph.now }
    ensures { OnOk result (text.new.items ≡ text.old.items ++ reason_text net.now graph.now line.now.better line.now.worse line.now.why) }
{
    match line.why {
        Why::RankWorse => {
            push_bytes(text, b" rank")?;
            push_rank(text, graph.rank(line.better))?;
            push_rank(text, graph.rank(line.worse))
        }
        Why::NoStep(at) => {
            push_bytes(text, b" no-step")?;
            push_next(text, net, at)
        }
        Why::StepWorse(at) => {
            push_bytes(text, b" step")?;
            push_next(text, net, at)
        }
        Why::LoopWorse(at, via) => {
            push_bytes(text, b" loop")?;
            push_next(text, net, at)?;
            push_bytes(text, b" via")?;
            push_shown(alloc, text, net, graph, via)
        }
        Why::ListenerWorse(peer) => {
            push_bytes(text, b" listener")?;
            push_next(text, net, peer)
        }
    }
}

// Adds the line of a removed pair.
#[tactic(auto, unfolding(crate::specs::Explanations::removed_line))]
fn push_removed(
    alloc: Global,
    text: &mut Vec<u8>,
    net: &Net,
    graph: &Graph,
    line: &Removed,
) -> Result<(), NoMemory>
    requires on { IsOn graph.now line.now }
    requires entered { IsEnteredFromBefore graph.now }
    ensures { OnOk result (text.new.items ≡ text.old.items ++ removed_line net.now graph.now line.now) }
{
    push_bytes(text, b"round ")?;
    push_number(text, line.round)?;
    push_router(text, net, graph.location(line.better))?;
    push_pair(alloc, text, net, graph, line.better, line.worse)?;
    push_reason(alloc, text, net, graph, line)?;
    push_bytes(text, b"\n")
}

// Adds the lines of removed pairs.
fn push_lines(
    alloc: Global,
    text: &mut Vec<u8>,
    net: &Net,
    graph: &Graph,
    lines: &[Removed],
) -> Result<(), NoMemory>
    requires on { (l : PlainRemoved) → IsLine lines.now l → IsOn graph.now l }
    requires entered { IsEnteredFromBefore graph.now }
    ensures { OnOk result (text.new.items ≡ text.old.items ++ flat_map (removed_line net.now graph.now) lines.now) }
{
    for line in lines {
        push_removed(alloc, text, net, graph, line)?;
    }
    Ok(())
}

// Adds the lines of a refutation.
fn push_refutation(
    alloc: Global,
    text: &mut Vec<u8>,
    net: &Net,
    graph: &Graph,
    refutation: &Refutation,
) -> Result<(), NoMemory>
    requires { ShowsRefutation graph.now refutation.now }
    ensures { OnOk result (text.new.items ≡ text.old.items ++ flat_map (removed_line net.now graph.now) refutation.now.lines) }
{
    push_lines(alloc, text, net, graph, refutation.lines.as_slice())
}

// Adds what shows a refusal.
fn push_reasons(
    alloc: Global,
    text: &mut Vec<u8>,
    net: &Net,
    refusal: &CompileRefusal,
) -> Result<(), NoMemory>
    requires { IsShowable refusal.now }
    ensures { OnOk result (text.new.items ≡ text.old.items ++ reasons net.now refusal.now) }
{
    match refusal {
        CompileRefusal::NoEvidence(_, graph, refutation) => {
            push_refutation(alloc, text, net, graph, refutation)
        }
        _ => Ok(()),
    }
}

/// The line that tells that a policy is accepted.
pub fn accepted_line(alloc: Global) -> Result<Vec<u8>, NoMemory>
    ensures { IfOk result (λ v. v.items ≡ line_of_accepting) }
{
    let mut line = Vec::new(alloc);
    push_bytes(&mut line, b"accepted\n")?;
    Ok(line)
}

/// A refusal, and the lines that show it.
pub fn explanation(alloc: Global, net: &Net, refusal: &CompileRefusal) -> Result<Vec<u8>, NoMemory>
    requires { IsShowable refusal.now }
    ensures { IfOk result (λ v. v.items ≡ explanation_of net.now refusal.now) }
{
    let mut text = Vec::new(alloc);
    push_refusal(alloc, &mut text, net, refusal)?;
    push_reasons(alloc, &mut text, net, refusal)?;
    Ok(text)
}
