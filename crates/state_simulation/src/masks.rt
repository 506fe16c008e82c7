//! Rows of the nodes that a round leaves above the nodes that step to a target.
ghost use Rattle.std.specs.Prelude.{◌≡◌, ◌*◌, ◌<◌, ◌≤◌, ◌==◌, ◌&&◌, ◌||◌, ℕ, Bool, All, IfSome, IsTrue, false, length};
ghost use Rattle.bit_rows.specs.Bits.{has};
ghost use Rattle.bit_rows.specs.Tables.{has_at};
ghost use Rattle.graph_base.specs.Runs.{is_listener, rank_at};
ghost use Rattle.reach_prune.specs.Searches.{is_among};
ghost use Rattle.relation_law.specs.Relations.{no_worse};
ghost use Rattle.relation_law.specs.Rounds.{fails_at, has_answer, is_heard_there, is_looped};
ghost use Rattle.state_simulation.specs.Looked.{shown};
ghost use Rattle.state_simulation.specs.Targets.{AreNodeRows, AreTold, IsMaskOf, IsWide, gone_in};

use crate::maps::Maps;
use crate::pairs::is_no_worse;
use bit_rows::{Rows, add_row, clear_row, is_set, set_bit};
use graph_base::Graph;

/// Makes the mask that of a target: it has the nodes for which no rule fails at a step to it. It may be the mask of
/// another target before. The other row is for the nodes that the loop rule takes.
pub fn make_mask(
    mask: &mut [u64],
    looped: &mut [u64],
    maps: &Maps,
    onwards: &Option<Rows>,
    left: &Rows,
    held: Option<u32>,
    t: u32,
)
    requires onwards { IfSome onwards.now (AreTold maps.now.graph.now) }
    requires left { AreNodeRows maps.now.graph.now left.now }
    requires looped { length looped.old ≡ length mask.old }
    requires wide { IsWide (length maps.now.graph.now.nodes) (length mask.old) }
    requires held { IfSome held (λ s. s < length maps.now.graph.now.nodes) }
    requires mask { IfSome held (IsMaskOf maps.now.graph.now onwards.now left.now mask.old) }
    requires t { t < length maps.now.graph.now.nodes }
    ensures len { length mask.new ≡ length mask.old }
    ensures looped { length looped.new ≡ length looped.old }
    ensures bits { IsMaskOf maps.now.graph.now onwards.now left.now mask.new t }
{
    if let Some(s) = held {
        if have_one_mask(maps, left, s, t) {
            return;
        }
    }
    mask.fill(0);
    if maps.graph().hears(t) {
        add_hearers(mask, maps, t);
        return;
    }
    add_answers(mask, maps, left, t);
    if let Some(onwards) = onwards {
        looped.fill(0);
        add_loops(looped, maps, onwards, left, t);
        clear_row(mask, looped);
    }
}

// Whether two targets at one location hear with one rank, or don't hear and have one row. Then they have one mask.
fn have_one_mask(maps: &Maps, left: &Rows, s: u32, t: u32) -> bool
    requires left { AreNodeRows maps.now.graph.now left.now }
    requires s { s < length maps.now.graph.now.nodes }
    requires t { t < length maps.now.graph.now.nodes }
    ensures { IsTrue result → (reach : ℕ → ℕ → Bool) (m : ℕ) → fails_at (shown maps.now.graph.now) reach (gone_in left.now) m s
        ≡ fails_at (shown maps.now.graph.now) reach (gone_in left.now) m t }
{
    let graph = maps.graph();
    if graph.location(s) != graph.location(t) || graph.hears(s) != graph.hears(t) {
        return false;
    }
    if graph.hears(t) {
        graph.rank(s) == graph.rank(t)
    } else {
        left.row(s) == left.row(t)
    }
}

// Sets the bits of these nodes.
fn set_each(mask: &mut [u64], nodes: &[u32])
    requires { All (λ n. n < 64 * length mask.old) nodes.now }
    ensures len { length mask.new ≡ length mask.old }
    ensures bits { (b : ℕ) → has mask.new b ≡ (has mask.old b || is_among nodes.now b) }
{
    for node in nodes {
        set_bit(mask, *node);
    }
}

// Sets who steps to a node at the location of t that doesn't hear and is in t's row.
fn add_answers(mask: &mut [u64], maps: &Maps, left: &Rows, t: u32)
    requires left { AreNodeRows maps.now.graph.now left.now }
    requires mask { length maps.now.graph.now.nodes ≤ 64 * length mask.old }
    requires t { t < length maps.now.graph.now.nodes }
    ensures len { length mask.new ≡ length mask.old }
    ensures bits { (m : ℕ) → has mask.new m ≡ (has mask.old m || has_answer (shown maps.now.graph.now) (gone_in left.now) m t) }
{
    let row = left.row(t);
    for s in maps.peers(t) {
        if is_set(row, *s) && !maps.graph().hears(*s) {
            set_each(mask, maps.before(*s));
        }
    }
}

// Sets who steps to a node at the location of t that hears, with no worse a rank than t.
fn add_hearers(mask: &mut [u64], maps: &Maps, t: u32)
    requires mask { length maps.now.graph.now.nodes ≤ 64 * length mask.old }
    requires t { t < length maps.now.graph.now.nodes }
    ensures len { length mask.new ≡ length mask.old }
    ensures bits { (m : ℕ) → has mask.new m ≡ (has mask.old m || is_heard_there (shown maps.now.graph.now) m t) }
{
    for s in maps.peers(t) {
        if is_hearer(maps.graph(), *s, t) {
            set_each(mask, maps.before(*s));
        }
    }
}

/// Whether s hears, with no worse a rank than t.
pub fn is_hearer(graph: &Graph, s: u32, t: u32) -> bool
    requires s { s < length graph.now.nodes }
    requires t { t < length graph.now.nodes }
    ensures { result ≡ (is_listener graph.now s && no_worse (rank_at graph.now s) (rank_at graph.now t)) }
{
    graph.hears(s) && is_no_worse(graph.rank(s), graph.rank(t))
}

// Sets what can be reached from a node at the location of t that isn't in t's row.
fn add_loops(looped: &mut [u64], maps: &Maps, onwards: &Rows, left: &Rows, t: u32)
    requires onwards { AreTold maps.now.graph.now onwards.now }
    requires left { AreNodeRows maps.now.graph.now left.now }
    requires looped { (b : ℕ) → has looped.old b ≡ false }
    requires wide { IsWide (length maps.now.graph.now.nodes) (length looped.old) }
    requires t { t < length maps.now.graph.now.nodes }
    ensures len { length looped.new ≡ length looped.old }
    ensures bits { (m : ℕ) → has looped.new m ≡ is_looped (shown maps.now.graph.now) (has_at onwards.now) (gone_in left.now) m t }
{
    let row = left.row(t);
    for k in maps.peers(t) {
        // What can be reached from a node that is set already is set too.
        if !is_set(row, *k) && !is_set(looped, *k) {
            add_row(looped, onwards.row(*k));
        }
    }
}
