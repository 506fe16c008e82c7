//! The pairs that the rule of ranks leaves.
ghost use Rattle.std.specs.Prelude.{◌≡◌, ◌<◌, ◌&&◌, ◌||◌, ◌==◌, ℕ, IfOk, IfSome, length, not};
ghost use Rattle.bit_rows.specs.Tables.{IsSameSize, has_at};
ghost use Rattle.graph_base.specs.Runs.{place_of, rank_at};
ghost use Rattle.relation_law.specs.Relations.{no_worse};
ghost use Rattle.relation_law.specs.Rounds.{same_place};
ghost use Rattle.relation_law.specs.Views.{view_of};
ghost use Rattle.state_simulation.specs.Targets.{AreNodeRows, IsWide, is_outranked as is_outranked_in};

use crate::maps::Maps;
use bit_rows::Rows;
use graph_base::Graph;
use input_output::NoMemory;
use net_base::LocSet;
use std::alloc::Global;

/// For each node the nodes at its location that don't have a worse rank, where that is claimed.
pub fn ranked_pairs(alloc: Global, maps: &Maps, claimed: &LocSet) -> Result<Rows, NoMemory>
    ensures rows { IfOk result (AreNodeRows maps.now.graph.now) }
    ensures wide { IfOk result (λ rows. IsWide (length maps.now.graph.now.nodes) rows.width) }
    ensures bits { IfOk result (λ rows. (m n : ℕ) → m < length maps.now.graph.now.nodes → n < length maps.now.graph.now.nodes → has_at rows n m
        ≡ (same_place (view_of maps.now.graph.now claimed.now) m n && not (is_outranked_in (view_of maps.now.graph.now claimed.now) m n))) }
{
    let size = maps.graph().nodes().len() as u32;
    let mut rows = Rows::new(alloc, size, size)?;
    for n in 0..size {
        add_above(&mut rows, maps, claimed, n);
    }
    Ok(rows)
}

// Sets who of the nodes at the location of n doesn't have a worse rank, where that is claimed. The rows of the nodes before n
// are made, and the row of one of them may be that of n too.
fn add_above(rows: &mut Rows, maps: &Maps, claimed: &LocSet, n: u32)
    requires rows { AreNodeRows maps.now.graph.now rows.old }
    requires n { n < length maps.now.graph.now.nodes }
    requires before { (r b : ℕ) → r < n → b < length maps.now.graph.now.nodes → has_at rows.old r b
        ≡ (same_place (view_of maps.now.graph.now claimed.now) b r && not (is_outranked_in (view_of maps.now.graph.now claimed.now) b r)) }
    ensures size { IsSameSize rows.new rows.old }
    ensures bits { (r b : ℕ) → r < length maps.now.graph.now.nodes → b < length maps.now.graph.now.nodes → has_at rows.new r b
        ≡ (has_at rows.old r b || (r == n && (same_place (view_of maps.now.graph.now claimed.now) b n && not (is_outranked_in (view_of maps.now.graph.now claimed.now) b n)))) }
{
    match row_before(maps, claimed, n) {
        Some(m) => rows.or_row(n, m),
        None => add_each(rows, maps, claimed, n),
    }
}

// A node before n that has the row of n: one at its location, and with its rank where that is claimed.
fn row_before(maps: &Maps, claimed: &LocSet, n: u32) -> Option<u32>
    requires { n < length maps.now.graph.now.nodes }
    ensures { IfSome result (λ m. (m < n) × (place_of maps.now.graph.now m ≡ place_of maps.now.graph.now n)
        × ((b : ℕ) → is_outranked_in (view_of maps.now.graph.now claimed.now) b m ≡ is_outranked_in (view_of maps.now.graph.now claimed.now) b n)) }
{
    if claimed.holds(maps.graph().location(n)) {
        alike_before(maps, n)
    } else {
        peer_before(maps, n)
    }
}

// The first node with the location of n, where it stands before n.
fn peer_before(maps: &Maps, n: u32) -> Option<u32>
    requires { n < length maps.now.graph.now.nodes }
    ensures { IfSome result (λ m. (m < n) × (place_of maps.now.graph.now m ≡ place_of maps.now.graph.now n)) }
{
    for m in maps.peers(n) {
        if *m < n {
            return Some(*m);
        }
    }
    None
}

// The first node with the location and the rank of n, where it stands before n.
fn alike_before(maps: &Maps, n: u32) -> Option<u32>
    requires { n < length maps.now.graph.now.nodes }
    ensures { IfSome result (λ m. (m < n) × (place_of maps.now.graph.now m ≡ place_of maps.now.graph.now n) × (rank_at maps.now.graph.now m ≡ rank_at maps.now.graph.now n)) }
{
    let rank = maps.graph().rank(n);
    for m in maps.peers(n) {
        if *m < n && maps.graph().rank(*m) == rank {
            return Some(*m);
        }
    }
    None
}

// Sets, one by one, who of the nodes at the location of n doesn't have a worse rank, where that is claimed.
fn add_each(rows: &mut Rows, maps: &Maps, claimed: &LocSet, n: u32)
    requires rows { AreNodeRows maps.now.graph.now rows.old }
    requires n { n < length maps.now.graph.now.nodes }
    ensures size { IsSameSize rows.new rows.old }
    ensures bits { (r b : ℕ) → r < length maps.now.graph.now.nodes → b < length maps.now.graph.now.nodes → has_at rows.new r b
        ≡ (has_at rows.old r b || (r == n && (same_place (view_of maps.now.graph.now claimed.now) b n && not (is_outranked_in (view_of maps.now.graph.now claimed.now) b n)))) }
{
    for m in maps.peers(n) {
        if !is_outranked(maps.graph(), claimed, *m, n) {
            rows.set(n, *m);
        }
    }
}

/// Whether the location of n is claimed, and m has a worse rank.
pub fn is_outranked(graph: &Graph, claimed: &LocSet, m: u32, n: u32) -> bool
    requires m { m < length graph.now.nodes }
    requires n { n < length graph.now.nodes }
    ensures { result ≡ is_outranked_in (view_of graph.now claimed.now) m n }
{
    claimed.holds(graph.location(n)) && !is_no_worse(graph.rank(m), graph.rank(n))
}

/// Whether the first rank is no worse than the second; to have none is worst.
pub fn is_no_worse(one: Option<u32>, other: Option<u32>) -> bool
    ensures { result ≡ no_worse one other }
{
    match (one, other) {
        (_, None) => true,
        (None, Some(_)) => false,
        (Some(one), Some(other)) => one <= other,
    }
}
