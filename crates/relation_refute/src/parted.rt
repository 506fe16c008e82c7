//! Nodes of which each went above the other.
ghost use Rattle.std.specs.Prelude.{◌≡◌, ◌⊎◌, ◌<◌, ◌≤◌, ◌&&◌, ℕ, IfSome, IsTrue, Some, false, length};
ghost use Rattle.graph_base.specs.Least.{least_below};
ghost use Rattle.graph_base.specs.Runs.{place_of};
ghost use Rattle.relation_law.specs.Relations.{Pair};
ghost use Rattle.relation_law.specs.Rounds.{same_place};
ghost use Rattle.relation_refute.specs.Cells.{AreCells, are_parted as parted};
ghost use Rattle.relation_refute.specs.Faults.{stands_before};
ghost use Rattle.state_simulation.specs.Looked.{shown};

use crate::cells::Cells;
use crate::faults::is_before;
use state_simulation::Maps;

// Whether each of two nodes at one location went above the other.
fn are_parted(maps: &Maps, cells: &Cells, m: u32, n: u32) -> bool
    requires cells { AreCells maps.now.graph.now cells.now }
    requires pair { Pair (shown maps.now.graph.now) m n }
    ensures { result ≡ parted cells.now m n }
{
    cells.round(m, n) > 0 && cells.round(n, m) > 0
}

// Whether m stands where n stands, and each went above the other.
fn is_parted_from(maps: &Maps, cells: &Cells, m: u32, n: u32) -> bool
    requires cells { AreCells maps.now.graph.now cells.now }
    requires m { m < length maps.now.graph.now.nodes }
    requires n { n < length maps.now.graph.now.nodes }
    ensures { result ≡ (same_place (shown maps.now.graph.now) m n && parted cells.now m n) }
{
    maps.graph().location(m) == maps.graph().location(n) && are_parted(maps, cells, m, n)
}

/// The least node at the location of n such that each of the two went above the other.
pub fn least_parted(maps: &Maps, cells: &Cells, n: u32) -> Option<u32>
    requires cells { AreCells maps.now.graph.now cells.now }
    requires n { n < length maps.now.graph.now.nodes }
    ensures { result ≡ least_below (length maps.now.graph.now.nodes) (λ m. same_place (shown maps.now.graph.now) m n && parted cells.now m n) }
{
    for m in 0..maps.graph().nodes().len() as u32 {
        if is_parted_from(maps, cells, m, n) {
            return Some(m);
        }
    }
    None
}

// Whether n and some node at its location went above each other.
fn has_parted(maps: &Maps, cells: &Cells, n: u32) -> bool
    requires cells { AreCells maps.now.graph.now cells.now }
    requires n { n < length maps.now.graph.now.nodes }
    ensures some { IsTrue result → (m : ℕ) × Pair (shown maps.now.graph.now) m n × IsTrue (parted cells.now m n) }
    ensures none { result ≡ false → (m : ℕ) → Pair (shown maps.now.graph.now) m n → parted cells.now m n ≡ false }
{
    for m in maps.peers(n) {
        if are_parted(maps, cells, *m, n) {
            return true;
        }
    }
    false
}

// Whether n and some node at its location went above each other, and n stands before the first one, if there is one.
fn is_parted_before(maps: &Maps, cells: &Cells, n: u32, first: Option<u32>) -> bool
    requires cells { AreCells maps.now.graph.now cells.now }
    requires n { n < length maps.now.graph.now.nodes }
    requires first { IfSome first (λ f. f < length maps.now.graph.now.nodes) }
    ensures some { IsTrue result → ((m : ℕ) × Pair (shown maps.now.graph.now) m n × IsTrue (parted cells.now m n)) × IsTrue (stands_before maps.now.graph.now n first) }
    ensures none { result ≡ false → ((m : ℕ) × Pair (shown maps.now.graph.now) m n × IsTrue (parted cells.now m n)) → stands_before maps.now.graph.now n first ≡ false }
{
    // Where n stands is told at once, and spares all nodes behind the first one.
    is_before(maps.graph(), n, first) && has_parted(maps, cells, n)
}

/// Of the nodes that went above one at their location, and it above them, the first by location, and there the least.
pub fn first_parted(maps: &Maps, cells: &Cells) -> Option<u32>
    requires { AreCells maps.now.graph.now cells.now }
    ensures some { IfSome result (λ f. (f < length maps.now.graph.now.nodes) × ((m : ℕ) × Pair (shown maps.now.graph.now) m f × IsTrue (parted cells.now m f))) }
    ensures first { (m n : ℕ) → Pair (shown maps.now.graph.now) m n → IsTrue (parted cells.now m n)
        → (f : ℕ) × (result ≡ Some f) × ((place_of maps.now.graph.now f < place_of maps.now.graph.now n) ⊎ (place_of maps.now.graph.now f ≡ place_of maps.now.graph.now n) × (f ≤ n)) }
{
    let mut first = None;
    for n in 0..maps.graph().nodes().len() as u32 {
        let is_first = is_parted_before(maps, cells, n, first);
        if is_first {
            first = Some(n);
        }
    }
    first
}
