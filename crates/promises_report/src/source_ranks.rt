//! The ranks of the walks of each source in one case: a row for each rank, with a bit for each source.
ghost use Rattle.std.specs.Prelude.{◌≡◌, ℕ, ◌+◌, ◌<◌, ◌≤◌, ◌||◌, false, IfOk, length};
ghost use Rattle.std.specs.List.{list_any};
ghost use Rattle.bit_rows.specs.Tables.{IsSameSize, has_at};
ghost use Rattle.graph_base.specs.Runs.{place_of, rank_at};
ghost use Rattle.net_base.specs.Locations.{numbers_below};
ghost use Rattle.promises_report.specs.Tables.{
  IsTableFor,
  IsTableOf,
  bit_of as bit_in,
  meet_by,
  node_sets,
  sets,
  step_sets,
};

use bit_rows::{Rows, outside_is_empty};
use graph_base::Graph;
use input_output::NoMemory;
use net_base::{Loc, Net, known_net};
use std::alloc::Global;

// The bit of a source by its router, and by the location at which its walks begin.
fn bit_of(router: Loc, first: Loc) -> u32
    ensures { result ≡ bit_in router first }
{
    u32::from(router.number()) * 768 + u32::from(first.number())
}

// Sets the bit in the row of a rank, where the table has so many ranks.
fn mark(rows: &mut Rows, ranks: u32, rank: Option<u32>, bit: u32)
    requires count { rows.old.count ≡ ranks + 1 }
    requires bit { bit < rows.old.bits }
    ensures size { IsSameSize rows.new rows.old }
    ensures bits { (n b : ℕ) → n < ranks + 1 → has_at rows.new n b ≡ (has_at rows.old n b || sets bit rank n b) }
{
    if let Some(rank) = rank {
        if 0 < rank && rank <= ranks {
            rows.set(rank, bit);
        }
    }
}

// Sets what a node at a router tells.
fn mark_node(rows: &mut Rows, net: &Net, graph: &Graph, ranks: u32, node: u32)
    requires size { IsTableFor net.now ranks rows.old }
    requires node { node < length graph.now.nodes }
    ensures size { IsSameSize rows.new rows.old }
    ensures bits { (n b : ℕ) → n < ranks + 1 → has_at rows.new n b ≡ (has_at rows.old n b || node_sets net.now graph.now n b node) }
{
    known_net(net);
    let at = graph.location(node);
    if net.is_router(at) {
        mark(rows, ranks, graph.rank(node), bit_of(at, at));
    }
}

// Sets what a step of a router to a peer tells.
fn mark_step(rows: &mut Rows, net: &Net, graph: &Graph, ranks: u32, step: (u32, u32))
    requires size { IsTableFor net.now ranks rows.old }
    requires from { step.0 < length graph.now.nodes }
    requires to { step.1 < length graph.now.nodes }
    ensures size { IsSameSize rows.new rows.old }
    ensures bits { (n b : ℕ) → n < ranks + 1 → has_at rows.new n b ≡ (has_at rows.old n b || step_sets net.now graph.now n b step) }
{
    known_net(net);
    let router = graph.location(step.0);
    let peer = graph.location(step.1);
    if net.is_router(router) && net.is_peer(peer) {
        mark(rows, ranks, graph.rank(step.1), bit_of(router, peer));
    }
}

// Sets what the nodes at routers tell.
fn mark_nodes(rows: &mut Rows, net: &Net, graph: &Graph, ranks: u32)
    requires size { IsTableFor net.now ranks rows.old }
    ensures size { IsSameSize rows.new rows.old }
    ensures bits { (n b : ℕ) → n < ranks + 1 → has_at rows.new n b ≡ (has_at rows.old n b || list_any (node_sets net.now graph.now n b) (numbers_below (length graph.now.nodes))) }
{
    for node in 0..graph.nodes().len() as u32 {
        mark_node(rows, net, graph, ranks, node);
    }
}

// Sets what the steps of routers to peers tell.
fn mark_steps(rows: &mut Rows, net: &Net, graph: &Graph, ranks: u32)
    requires size { IsTableFor net.now ranks rows.old }
    ensures size { IsSameSize rows.new rows.old }
    ensures bits { (n b : ℕ) → n < ranks + 1 → has_at rows.new n b ≡ (has_at rows.old n b || list_any (step_sets net.now graph.now n b) graph.now.steps) }
{
    for step in graph.steps() {
        mark_step(rows, net, graph, ranks, *step);
    }
}

/// For each rank, of so many, the sources with a walk that has it.
pub(crate) fn source_ranks(
    alloc: Global,
    net: &Net,
    graph: &Graph,
    ranks: u32,
) -> Result<Rows, NoMemory>
    requires { ranks ≤ 64 }
    ensures { IfOk result (IsTableOf net.now ranks graph.now) }
{
    known_net(net);
    let mut rows = Rows::new(alloc, ranks + 1, net.routers().len() as u32 * 768)?;
    mark_nodes(&mut rows, net, graph, ranks);
    mark_steps(&mut rows, net, graph, ranks);
    Ok(rows)
}

/// Whether some source has both ranks. Row 0 is clear.
pub(crate) fn some_has_both(rows: &Rows, i: u32, j: u32) -> bool
    requires one { i < rows.now.count }
    requires other { j < rows.now.count }
    requires clear { (b : ℕ) → has_at rows.now 0 b ≡ false }
    ensures { result ≡ meet_by rows.now i j }
{
    !outside_is_empty(rows.row(i), rows.row(j), rows.row(0))
}
