//! The rounds in which pairs go.
ghost use Rattle.std.specs.Prelude.{◌≡◌, ◌<◌, ◌==◌, ℕ, IfOk, OnOk, false, length, slice_index_or, if◌then◌else◌};
ghost use Rattle.bit_rows.specs.Tables.{has_at};
ghost use Rattle.graph_base.specs.Runs.{place_of};
ghost use Rattle.relation_law.specs.Relations.{Pair};
ghost use Rattle.relation_refute.specs.Cells.{AreCells, cell_at, marked_round, room_at, round_in, spot_of};
ghost use Rattle.state_simulation.specs.Looked.{shown};
ghost use Rattle.state_simulation.specs.Targets.{AreNodeRows, is_touched};

use bit_rows::{Rows, is_set};
use graph_base::Graph;
use input_output::NoMemory;
use state_simulation::{Maps, location_count};
use std::alloc::{AllocError, Global};

/// A cell for each two nodes at one location: the round in which the first went above the second, or 0. The cells of
/// those above one node stand together.
#[derive(Drop)]
pub struct Cells {
    spots: Vec<u32>,
    bases: Vec<usize>,
    rounds: Vec<u32>,
}

impl Cells {
    /// No pair has gone.
    pub fn new(alloc: Global, maps: &Maps) -> Result<Cells, NoMemory>
        ensures cells { IfOk result (AreCells maps.now.graph.now) }
        ensures none { IfOk result (λ cells. (m n : ℕ) → round_in cells m n ≡ 0) }
    {
        let graph = maps.graph();
        let mut counts = vec![in alloc; 0; location_count(graph) as usize]?;
        let spots = numbered_spots(alloc, graph, &mut counts)?;
        empty_cells(alloc, graph, spots, &counts)
    }

    /// The round in which the first of two nodes at one location went above the second, or 0.
    pub fn round(&self, m: u32, n: u32) -> u32
        requires m { m < length self.now.spots.items }
        requires n { n < length self.now.bases.items }
        requires cell { cell_at self.now m n < length self.now.rounds.items }
        ensures { result ≡ round_in self.now m n }
    {
        self.rounds[self.cell(m, n)]
    }

    // The cell of m above n.
    fn cell(&self, m: u32, n: u32) -> usize
        requires m { m < length self.now.spots.items }
        requires n { n < length self.now.bases.items }
        requires cell { cell_at self.now m n < length self.now.rounds.items }
        ensures is { result ≡ cell_at self.now m n }
        ensures within { result < length self.now.rounds.items }
    {
        self.spots[m as usize] as usize + self.bases[n as usize]
    }

    /// Notes the round at each pair of the touched rows that has none yet and isn't left.
    pub fn mark(&mut self, maps: &Maps, left: &Rows, touched: &[bool], round: u32)
        requires cells { AreCells maps.now.graph.now self.old }
        requires left { AreNodeRows maps.now.graph.now left.now }
        requires touched { length touched.now ≡ length maps.now.graph.now.nodes }
        ensures cells { AreCells maps.now.graph.now self.new }
        ensures rounds { (m k : ℕ) → Pair (shown maps.now.graph.now) m k → round_in self.new m k
            ≡ (if is_touched touched.now k then marked_round (round_in self.old m k) (has_at left.now k m) round else round_in self.old m k) }
    {
        for n in 0..touched.len() as u32 {
            let is_touched = touched[n as usize];
            if is_touched {
                self.mark_row(maps, left, n, round);
            }
        }
    }

    // The same for the row of one node.
    fn mark_row(&mut self, maps: &Maps, left: &Rows, n: u32, round: u32)
        requires cells { AreCells maps.now.graph.now self.old }
        requires left { AreNodeRows maps.now.graph.now left.now }
        requires n { n < length maps.now.graph.now.nodes }
        ensures cells { AreCells maps.now.graph.now self.new }
        ensures rounds { (m k : ℕ) → Pair (shown maps.now.graph.now) m k → round_in self.new m k
            ≡ (if k == n then marked_round (round_in self.old m k) (has_at left.now k m) round else round_in self.old m k) }
    {
        let row = left.row(n);
        for m in maps.peers(n) {
            if !is_set(row, *m) {
                let place = self.cell(*m, n);
                self.rounds[place] = marked(self.rounds[place], round);
            }
        }
    }
}

// The round of a pair that isn't left: a pair without one gets this one.
fn marked(old: u32, round: u32) -> u32
    ensures { result ≡ marked_round old false round }
{
    if old == 0 { round } else { old }
}

// For each node how many nodes with lesser numbers stand at its location. Counts how many stand at each.
fn numbered_spots(alloc: Global, graph: &Graph, counts: &mut [u32]) -> Result<Vec<u32>, AllocError>
    requires counts { (n : ℕ) → n < length graph.now.nodes → place_of graph.now n < length counts.old }
    requires none { (l : ℕ) → slice_index_or counts.old l 0 ≡ 0 }
    ensures len { IfOk result (λ spots. length spots.items ≡ length graph.now.nodes) }
    ensures spots { IfOk result (λ spots. (m : ℕ) → m < length graph.now.nodes → slice_index_or spots.items m 0 ≡ spot_of graph.now m) }
    ensures places { length counts.new ≡ length counts.old }
    ensures counts { OnOk result ((l : ℕ) → l < length counts.new → slice_index_or counts.new l 0 ≡ room_at graph.now l) }
{
    let mut spots = Vec::new(alloc);
    for node in 0..graph.nodes().len() as u32 {
        let at = graph.location(node).number() as usize;
        spots.push(counts[at])?;
        counts[at] += 1;
    }
    Ok(spots)
}

// The cells of these spots, where so many nodes stand at each location.
fn empty_cells(
    alloc: Global,
    graph: &Graph,
    spots: Vec<u32>,
    counts: &[u32],
) -> Result<Cells, NoMemory>
    requires len { length spots.items ≡ length graph.now.nodes }
    requires spots { (m : ℕ) → m < length graph.now.nodes → slice_index_or spots.items m 0 ≡ spot_of graph.now m }
    requires places { (n : ℕ) → n < length graph.now.nodes → place_of graph.now n < length counts.now }
    requires counts { (l : ℕ) → l < length counts.now → slice_index_or counts.now l 0 ≡ room_at graph.now l }
    ensures cells { IfOk result (AreCells graph.now) }
    ensures none { IfOk result (λ cells. (m n : ℕ) → round_in cells m n ≡ 0) }
{
    let mut bases = Vec::new(alloc);
    let mut end: usize = 0;
    for node in 0..graph.nodes().len() as u32 {
        let at = graph.location(node).number() as usize;
        bases.push(end)?;
        end += counts[at] as usize;
    }
    let rounds = vec![in alloc; 0; end]?;
    Ok(Cells {
        spots,
        bases,
        rounds,
    })
}
