//! The first pair of nodes that breaks the rule for ranks, for steps or for listeners.
ghost use Rattle.std.specs.Prelude.{◌≡◌, ◌↔◌, ◌<◌, ℕ, false, IfOk, IsTrue, length};
ghost use Rattle.net_base.specs.Sets.{holds};
ghost use Rattle.graph_base.specs.Rules.{IsOver, KeepsListener, KeepsRank, KeepsStep};
ghost use Rattle.graph_base.specs.Runs.{is_listener};
ghost use Rattle.graph_base.specs.Preferences.{number_in};
ghost use Rattle.preference_check.specs.FirstPair.{IsFirstOrNone, IsFirstPairOrNone};
ghost use Rattle.preference_check.specs.Offers.{KeepsOffers, is_offered, offers_of};
ghost use Rattle.preference_check.specs.Rows.{has_upto};

use crate::low_row::LowRow;
use crate::offer_list::OfferList;
use crate::offers::{Towards, offers_by_rank, offers_by_steps};
use crate::passing::matching_nodes;
use graph_base::Graph;
use input_output::NoMemory;
use net_base::{LocSet, Net};
use std::alloc::Global;

/// Whether two nodes stand at one router, the first with a number that is no less.
pub fn is_over(net: &Net, graph: &Graph, numbers: &[u32], first: u32, second: u32) -> bool
    requires first { first < length graph.now.nodes }
    requires second { second < length graph.now.nodes }
    requires numbers { length numbers.now ≡ length graph.now.nodes }
    ensures { IsTrue result ↔ IsOver net.now graph.now (number_in numbers.now) first second }
{
    let at = graph.location(second);
    graph.location(first) == at
        && net.is_router(at)
        && numbers[second as usize] <= numbers[first as usize]
}

// The first node over which a node stands and whose offers its own row doesn't meet.
fn first_unmet(
    net: &Net,
    graph: &Graph,
    numbers: &[u32],
    offers: &[OfferList],
    node: u32,
    own: &LowRow,
) -> Option<u32>
    requires numbers { length numbers.now ≡ length graph.now.nodes }
    requires offers { length offers.now ≡ length graph.now.nodes }
    requires node { node < length graph.now.nodes }
    requires own { (at cost : ℕ) → has_upto own.now.least.items at cost ≡ is_offered (offers_of offers.now node) at cost }
    ensures { IsFirstOrNone (KeepsOffers net.now graph.now (number_in numbers.now) offers.now node) result }
{
    for other in 0..graph.nodes().len() as u32 {
        if is_over(net, graph, numbers, node, other)
            && !own.meets(offers[other as usize].as_slice())
        {
            return Some(other);
        }
    }
    None
}

// The first node over which a node stands and that it doesn't match.
fn first_unmatched(
    alloc: Global,
    net: &Net,
    graph: &Graph,
    numbers: &[u32],
    offers: &[OfferList],
    node: u32,
) -> Result<Option<u32>, NoMemory>
    requires numbers { length numbers.now ≡ length graph.now.nodes }
    requires offers { length offers.now ≡ length graph.now.nodes }
    requires node { node < length graph.now.nodes }
    ensures { IfOk result (IsFirstOrNone (KeepsOffers net.now graph.now (number_in numbers.now) offers.now node)) }
{
    if !net.is_router(graph.location(node)) {
        return Ok(None);
    }
    let mut own = LowRow::new(alloc);
    own.take_in(offers[node as usize].as_slice())?;
    Ok(first_unmet(net, graph, numbers, offers, node, &own))
}

// The first pair of nodes of which the first stands over the second and doesn't match it.
fn first_pair(
    alloc: Global,
    net: &Net,
    graph: &Graph,
    numbers: &[u32],
    offers: &[OfferList],
) -> Result<Option<(u32, u32)>, NoMemory>
    requires numbers { length numbers.now ≡ length graph.now.nodes }
    requires offers { length offers.now ≡ length graph.now.nodes }
    ensures { IfOk result (IsFirstPairOrNone (KeepsOffers net.now graph.now (number_in numbers.now) offers.now)) }
{
    let matching = matching_nodes(alloc, net, graph, numbers, offers)?;
    for first in 0..graph.nodes().len() as u32 {
        if !matching[first as usize] {
            if let Some(second) = first_unmatched(alloc, net, graph, numbers, offers, first)? {
                return Ok(Some((first, second)));
            }
        }
    }
    Ok(None)
}

/// The first pair of nodes, the first over the second, of which the first has a worse rank at a claimed router, or
/// none there.
pub fn rank_fault(
    alloc: Global,
    net: &Net,
    graph: &Graph,
    numbers: &[u32],
    claimed: &LocSet,
) -> Result<Option<(u32, u32)>, NoMemory>
    requires { length numbers.now ≡ length graph.now.nodes }
    ensures { IfOk result (IsFirstPairOrNone (KeepsRank net.now (λ l. IsTrue (holds claimed.now l)) graph.now (number_in numbers.now))) }
{
    let offers = offers_by_rank(alloc, graph, claimed)?;
    first_pair(alloc, net, graph, numbers, &offers)
}

/// The first pair of nodes, the first over the second, of which the second steps to a router to which the first
/// doesn't, or to a node of a greater number there.
pub fn step_fault(
    alloc: Global,
    net: &Net,
    graph: &Graph,
    numbers: &[u32],
) -> Result<Option<(u32, u32)>, NoMemory>
    requires { length numbers.now ≡ length graph.now.nodes }
    ensures { IfOk result (IsFirstPairOrNone (KeepsStep net.now graph.now (number_in numbers.now))) }
{
    let offers = offers_by_steps(alloc, graph, numbers, Towards::Routers)?;
    first_pair(alloc, net, graph, numbers, &offers)
}

// Whether a node hears.
fn some_hears(graph: &Graph) -> bool
    ensures { result ≡ false → (n : ℕ) → is_listener graph.now n ≡ false }
{
    for node in graph.nodes() {
        if node.listener {
            return true;
        }
    }
    false
}

/// The first pair of nodes, the first over the second, of which the second is heard at a peer at which the first
/// isn't, or is only with a worse rank. Where peers are the origins nobody hears, and no pair breaks the rule; nor does
/// one where no node hears.
pub fn listener_fault(
    alloc: Global,
    net: &Net,
    external: bool,
    graph: &Graph,
    numbers: &[u32],
) -> Result<Option<(u32, u32)>, NoMemory>
    requires { length numbers.now ≡ length graph.now.nodes }
    ensures { IfOk result (IsFirstPairOrNone (KeepsListener net.now external graph.now (number_in numbers.now))) }
{
    if external {
        return Ok(None);
    }
    if !some_hears(graph) {
        return Ok(None);
    }
    let offers = offers_by_steps(alloc, graph, numbers, Towards::Listeners)?;
    first_pair(alloc, net, graph, numbers, &offers)
}
