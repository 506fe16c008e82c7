//! The nodes that offer at least as well as each node over which they stand.
ghost use Rattle.std.specs.Prelude.{◌≡◌, ◌⊎◌, ◌<◌, ◌≤◌, All, ℕ, true, IfOk, IsTrue, length};
ghost use Rattle.reach_prune.specs.Searches.{is_marked};
ghost use Rattle.graph_base.specs.Preferences.{number_in};
ghost use Rattle.preference_check.specs.Offers.{KeepsOffers, is_offered};
ghost use Rattle.preference_check.specs.Rows.{has_upto};
ghost use Rattle.preference_check.specs.Runs.{AreTaken, AreUpto, IsAscending, IsMatching};

use crate::low_row::LowRow;
use crate::offer_list::OfferList;
use crate::offers::Offer;
use crate::runs::{Numbered, in_order, nodes_of_routers};
use graph_base::Graph;
use input_output::NoMemory;
use net_base::Net;
use std::alloc::{AllocError, Global};

// Takes in what the next nodes of a run offer, as far as their numbers are no greater than a number. How many nodes
// are taken in then.
fn take_in_upto(
    offers: &[OfferList],
    run: &[Numbered],
    count: usize,
    number: u32,
    owed: &mut LowRow,
) -> Result<usize, AllocError>
    requires count { count ≤ length run.now }
    requires nodes { All (λ x. x.node < length offers.now) run.now }
    requires order { IsAscending run.now }
    requires taken { AreTaken offers.now run.now count owed.old.least.items }
    ensures count { IfOk result (λ next. next ≤ length run.now) }
    ensures taken { IfOk result (λ next. AreTaken offers.now run.now next owed.new.least.items) }
    ensures all { IfOk result (λ next. AreUpto run.now next number) }
{
    let mut next = count;
    'next: while next < run.len() {
        let entry = run[next];
        if number < entry.number {
            break;
        }
        owed.take_in(offers[entry.node as usize].as_slice())?;
        next += 1;
    }
    Ok(next)
}

// Whether offers are as low as a row wherever it has numbers. They are put in a row of their own, unless the other one has just
// them, as it has where all nodes of a run offer the same.
fn are_enough(own: &mut LowRow, offers: &[Offer], owed: &LowRow) -> Result<bool, AllocError>
    ensures { IfOk result (λ enough. IsTrue enough → (p n : ℕ) → IsTrue (has_upto owed.now.least.items p n) → IsTrue (is_offered offers.now p n)) }
{
    if owed.has_just(offers) {
        return Ok(true);
    }
    own.clear();
    own.take_in(offers)?;
    Ok(own.is_as_low(owed))
}

// Marks the nodes of a run that offer at least as well as each of its nodes that has no greater number.
fn mark_matching(
    alloc: Global,
    offers: &[OfferList],
    run: &[Numbered],
    marks: &mut Vec<bool>,
) -> Result<(), AllocError>
    requires nodes { All (λ x. x.node < length offers.now) run.now }
    requires order { IsAscending run.now }
    requires size { length marks.old.items ≡ length offers.now }
    ensures size { length marks.new.items ≡ length marks.old.items }
    ensures marks { (m : ℕ) → IsTrue (is_marked marks.new.items m) → IsTrue (is_marked marks.old.items m) ⊎ IsMatching offers.now run.now m }
{
    let mut owed = LowRow::new(alloc);
    let mut own = LowRow::new(alloc);
    let mut count = 0;
    for entry in run {
        count = take_in_upto(offers, run, count, entry.number, &mut owed)?;
        if are_enough(&mut own, offers[entry.node as usize].as_slice(), &owed)? {
            marks[entry.node as usize] = true;
        }
    }
    Ok(())
}

/// Marks nodes at routers that offer at least as well as each node over which they stand.
pub fn matching_nodes(
    alloc: Global,
    net: &Net,
    graph: &Graph,
    numbers: &[u32],
    offers: &[OfferList],
) -> Result<Vec<bool>, NoMemory>
    requires numbers { length numbers.now ≡ length graph.now.nodes }
    requires offers { length offers.now ≡ length graph.now.nodes }
    ensures size { IfOk result (λ marks. length marks.items ≡ length graph.now.nodes) }
    ensures marks { IfOk result (λ marks. (m n : ℕ) → IsTrue (is_marked marks.items m) → KeepsOffers net.now graph.now (number_in numbers.now) offers.now m n) }
{
    let mut marks = vec![in alloc; false; graph.nodes().len()]?;
    let mut routers = nodes_of_routers(alloc, net, graph, numbers)?;
    'routers: while let Some(nodes) = routers.pop() {
        let run = in_order(nodes);
        mark_matching(alloc, offers, &run, &mut marks)?;
    }
    Ok(marks)
}
