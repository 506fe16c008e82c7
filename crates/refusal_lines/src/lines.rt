//! What is said of a policy that is refused.
ghost use Rattle.std.specs.Prelude.{◌≡◌, ◌++◌, ◌<◌, OnOk, IfOk, codes, length};
ghost use Rattle.graph_base.specs.Walks.{IsEnteredFromBefore};
ghost use Rattle.net_base.specs.Network.{name_of};
ghost use Rattle.refusal_lines.specs.RefusalLines.{case_text, router_text, next_name, walk_text, walks_text, shown_text, pair_text, refusal_values, refusal_text, named_refusal_line as named_line_of, refusal_line as line_of, IsShowable};

use case_core::CompileRefusal;
use graph_base::{Graph, walk_of};
use input_output::NoMemory;
use net_base::{Loc, Net};
use std::alloc::Global;
use text_parts::{push_bytes, push_name, push_number};

// Adds the name of a location, where the network has it.
fn push_location(line: &mut Vec<u8>, net: &Net, at: Loc) -> Result<(), NoMemory>
    ensures { OnOk result (line.new.items ≡ line.old.items ++ name_of net.now at) }
{
    if net.is_router(at) || net.is_peer(at) {
        push_name(line, &net.name_of(at))
    } else {
        Ok(())
    }
}

// Adds the number of a case.
fn push_case(line: &mut Vec<u8>, number: u32) -> Result<(), NoMemory>
    ensures { OnOk result (line.new.items ≡ line.old.items ++ case_text number) }
{
    push_bytes(line, b" case ")?;
    push_number(line, u64::from(number))
}

/// Adds the name of a router.
pub fn push_router(line: &mut Vec<u8>, net: &Net, at: Loc) -> Result<(), NoMemory>
    ensures { OnOk result (line.new.items ≡ line.old.items ++ router_text net.now at) }
{
    push_bytes(line, b" router ")?;
    push_location(line, net, at)
}

/// Adds a location's name after a space.
pub fn push_next(line: &mut Vec<u8>, net: &Net, at: Loc) -> Result<(), NoMemory>
    ensures { OnOk result (line.new.items ≡ line.old.items ++ next_name net.now at) }
{
    push_bytes(line, b" ")?;
    push_location(line, net, at)
}

// Adds the names along a walk, each after a space.
fn push_walk(line: &mut Vec<u8>, net: &Net, walk: &[Loc]) -> Result<(), NoMemory>
    ensures { OnOk result (line.new.items ≡ line.old.items ++ walk_text net.now walk.now) }
{
    for at in walk {
        push_next(line, net, *at)?;
    }
    Ok(())
}

// Adds the walk with a rank, and the one without.
fn push_walks(line: &mut Vec<u8>, net: &Net, with: &[Loc], without: &[Loc]) -> Result<(), NoMemory>
    ensures { OnOk result (line.new.items ≡ line.old.items ++ walks_text net.now with.now without.now) }
{
    push_bytes(line, b" with")?;
    push_walk(line, net, with)?;
    push_bytes(line, b" without")?;
    push_walk(line, net, without)
}

/// Adds the walk by which a node is shown.
pub fn push_shown(
    alloc: Global,
    line: &mut Vec<u8>,
    net: &Net,
    graph: &Graph,
    node: u32,
) -> Result<(), NoMemory>
    requires node { node < length graph.now.nodes }
    requires entered { IsEnteredFromBefore graph.now }
    ensures { OnOk result (line.new.items ≡ line.old.items ++ shown_text net.now graph.now node) }
{
    let walk = walk_of(alloc, graph, node)?;
    push_walk(line, net, walk.as_slice())
}

/// Adds the walks by which two nodes are shown.
pub fn push_pair(
    alloc: Global,
    line: &mut Vec<u8>,
    net: &Net,
    graph: &Graph,
    first: u32,
    second: u32,
) -> Result<(), NoMemory>
    requires first { first < length graph.now.nodes }
    requires second { second < length graph.now.nodes }
    requires entered { IsEnteredFromBefore graph.now }
    ensures { OnOk result (line.new.items ≡ line.old.items ++ pair_text net.now graph.now first second) }
{
    push_bytes(line, b" first")?;
    push_shown(alloc, line, net, graph, first)?;
    push_bytes(line, b" second")?;
    push_shown(alloc, line, net, graph, second)
}

// Adds the values of a refusal.
fn push_values(
    alloc: Global,
    line: &mut Vec<u8>,
    net: &Net,
    refusal: &CompileRefusal,
) -> Result<(), NoMemory>
    requires { IsShowable refusal.now }
    ensures { OnOk result (line.new.items ≡ line.old.items ++ refusal_values net.now refusal.now) }
{
    match refusal {
        CompileRefusal::TooManyRanks(case, count) => {
            push_case(line, *case)?;
            push_bytes(line, b" number ")?;
            push_number(line, *count)
        }
        CompileRefusal::TooManyStates(case) | CompileRefusal::TooManySteps(case) => {
            push_case(line, *case)
        }
        CompileRefusal::SourceWithoutPath(case, router) => {
            push_case(line, *case)?;
            push_router(line, net, *router)
        }
        CompileRefusal::MixedSource(case, router, with, without) => {
            push_case(line, *case)?;
            push_router(line, net, *router)?;
            push_walks(line, net, with.as_slice(), without.as_slice())
        }
        CompileRefusal::NoEvidence(case, graph, refutation) => {
            push_case(line, *case)?;
            push_router(line, net, refutation.router)?;
            push_pair(alloc, line, net, graph, refutation.first, refutation.second)
        }
        CompileRefusal::NoMemory => Ok(()),
    }
}

/// Adds a refusal: its number, its word and its values. Locations are told by their names in the network.
#[tactic(auto, unfolding(crate::specs::RefusalLines::refusal_text))]
pub fn push_refusal(
    alloc: Global,
    line: &mut Vec<u8>,
    net: &Net,
    refusal: &CompileRefusal,
) -> Result<(), NoMemory>
    requires { IsShowable refusal.now }
    ensures { OnOk result (line.new.items ≡ line.old.items ++ refusal_text net.now refusal.now) }
{
    push_bytes(line, b"refused ")?;
    push_number(line, u64::from(refusal.number()))?;
    push_bytes(line, b" ")?;
    push_bytes(line, refusal.word())?;
    push_values(alloc, line, net, refusal)?;
    push_bytes(line, b"\n")
}

/// The line that tells a refusal. Where there are several policies, these words in front of it say of which it is, as `old `.
pub fn named_refusal_line(
    alloc: Global,
    words: &[u8],
    net: &Net,
    refusal: &CompileRefusal,
) -> Result<Vec<u8>, NoMemory>
    requires { IsShowable refusal.now }
    ensures { IfOk result (λ v. v.items ≡ named_line_of words.now net.now refusal.now) }
{
    let mut line = Vec::new(alloc);
    push_bytes(&mut line, b"propane: ")?;
    push_bytes(&mut line, words)?;
    push_refusal(alloc, &mut line, net, refusal)?;
    Ok(line)
}

/// The line that tells a refusal.
pub fn refusal_line(alloc: Global, net: &Net, refusal: &CompileRefusal) -> Result<Vec<u8>, NoMemory>
    requires { IsShowable refusal.now }
    ensures { IfOk result (λ v. v.items ≡ line_of net.now refusal.now) }
{
    named_refusal_line(alloc, b"", net, refusal)
}
