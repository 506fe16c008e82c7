//! The reason for which a pair goes.
ghost use Rattle.std.specs.Prelude.{◌≡◌, ◌<◌, ◌&&◌, ℕ, IfNone, IfSome, IsTrue, None, Some, false, is_some, length, option_map};
ghost use Rattle.bit_rows.specs.Tables.{has_at};
ghost use Rattle.graph_base.specs.Graphs.{IsGraph};
ghost use Rattle.graph_base.specs.Least.{least_below};
ghost use Rattle.graph_base.specs.Refuting.{HasSingleSteps};
ghost use Rattle.graph_base.specs.Runs.{has_step, place_of};
ghost use Rattle.relation_law.specs.Reasons.{IsFirstFailing, IsReason, none, reason_at as reason_there};
ghost use Rattle.relation_law.specs.Relations.{steps_on};
ghost use Rattle.relation_law.specs.Rounds.{fails, has_answer, is_heard_there};
ghost use Rattle.relation_law.specs.Views.{view_of};
ghost use Rattle.relation_refute.specs.Cells.{AreCells, went};
ghost use Rattle.relation_refute.specs.Faults.{RestsOn, answers_there as answers_where, hears_there as hears_where, loops_there as loops_where, stands_before};
ghost use Rattle.state_simulation.specs.Looked.{shown};
ghost use Rattle.state_simulation.specs.Targets.{AreTold};

use crate::falls::Fallen;
use graph_base::{Graph, Why};
use net_base::LocSet;
use state_simulation::{Maps, is_hearer, is_outranked};

/// A reason, and the pair on which it rests, if it rests on one.
#[derive(Clone, Copy, Debug, PartialEq, Eq)]
pub struct Fault {
    /// The reason.
    pub why: Why,
    /// The pair that had gone before and on which the reason rests: the first not as high as the second.
    pub rests: Option<(u32, u32)>,
}

// Whether s hears where t stands, with no worse a rank.
fn hears_there(graph: &Graph, s: u32, t: u32) -> bool
    requires s { s < length graph.now.nodes }
    requires t { t < length graph.now.nodes }
    ensures { result ≡ hears_where graph.now s t }
{
    graph.location(s) == graph.location(t) && is_hearer(graph, s, t)
}

// Whether s stands where t stands, and doesn't hear.
fn answers_there(graph: &Graph, s: u32, t: u32) -> bool
    requires s { s < length graph.now.nodes }
    requires t { t < length graph.now.nodes }
    ensures { result ≡ answers_where graph.now s t }
{
    graph.location(s) == graph.location(t) && !graph.hears(s)
}

// Whether m can be reached from k, where t stands, and k went above t before this round.
fn loops_there(maps: &Maps, fallen: &Fallen, round: u32, m: u32, t: u32, k: u32) -> bool
    requires cells { AreCells maps.now.graph.now fallen.now.cells }
    requires onwards { AreTold maps.now.graph.now fallen.now.onwards }
    requires m { m < length maps.now.graph.now.nodes }
    requires t { t < length maps.now.graph.now.nodes }
    requires k { k < length maps.now.graph.now.nodes }
    ensures { result ≡ loops_where maps.now.graph.now fallen.now round m t k }
{
    maps.graph().location(k) == maps.graph().location(t)
        && fallen.onwards.get(k, m)
        && fallen.went_before(maps, round, k, t)
}

// Whether m is heard by a node where t stands, with no worse a rank.
fn is_heard_at(maps: &Maps, m: u32, t: u32) -> bool
    requires m { m < length maps.now.graph.now.nodes }
    requires t { t < length maps.now.graph.now.nodes }
    ensures { result ≡ is_heard_there (shown maps.now.graph.now) m t }
{
    for s in maps.successors(m) {
        if hears_there(maps.graph(), *s, t) {
            return true;
        }
    }
    false
}

// The node to which m steps where t stands and that doesn't hear.
fn answer(maps: &Maps, m: u32, t: u32) -> Option<u32>
    requires m { m < length maps.now.graph.now.nodes }
    requires t { t < length maps.now.graph.now.nodes }
    ensures some { IfSome result (λ s. (s < length maps.now.graph.now.nodes) × IsTrue (steps_on (shown maps.now.graph.now) m s) × (place_of maps.now.graph.now s ≡ place_of maps.now.graph.now t)) }
    ensures none { IfNone result (has_answer (shown maps.now.graph.now) none m t ≡ false) }
{
    for s in maps.successors(m) {
        if answers_there(maps.graph(), *s, t) {
            return Some(*s);
        }
    }
    None
}

// The least node where t stands from which m can be reached and that went above t before this round.
fn looping(maps: &Maps, fallen: &Fallen, round: u32, m: u32, t: u32) -> Option<u32>
    requires cells { AreCells maps.now.graph.now fallen.now.cells }
    requires onwards { AreTold maps.now.graph.now fallen.now.onwards }
    requires m { m < length maps.now.graph.now.nodes }
    requires t { t < length maps.now.graph.now.nodes }
    ensures { result ≡ least_below (length maps.now.graph.now.nodes) (loops_where maps.now.graph.now fallen.now round m t) }
{
    for k in 0..maps.graph().nodes().len() as u32 {
        if loops_there(maps, fallen, round, m, t, k) {
            return Some(k);
        }
    }
    None
}

impl Fault {
    // A reason that rests on no pair.
    fn alone(why: Why) -> Fault
        ensures { result ≡ record { why = why; rests = None } }
    {
        Fault { why, rests: None }
    }

    // A reason that rests on this pair.
    fn resting(why: Why, a: u32, b: u32) -> Fault
        ensures { result ≡ record { why = why; rests = Some (a, b) } }
    {
        Fault {
            why,
            rests: Some((a, b)),
        }
    }
}

// The reason at a step to t for which m may not stand as high, against the pairs that went before this round.
fn fault_at(maps: &Maps, fallen: &Fallen, round: u32, m: u32, t: u32) -> Option<Fault>
    requires cells { AreCells maps.now.graph.now fallen.now.cells }
    requires onwards { AreTold maps.now.graph.now fallen.now.onwards }
    requires single { HasSingleSteps maps.now.graph.now }
    requires m { m < length maps.now.graph.now.nodes }
    requires t { t < length maps.now.graph.now.nodes }
    ensures why { option_map (λ f. f.why) result ≡ reason_there (shown maps.now.graph.now) (has_at fallen.now.onwards) (went fallen.now round) m t }
    ensures rests { IfSome result (λ f. (n : ℕ) → IsTrue (has_step maps.now.graph.now n t) → RestsOn (shown maps.now.graph.now) m n f) }
{
    let graph = maps.graph();
    let at = graph.location(t);
    if graph.hears(t) {
        if is_heard_at(maps, m, t) {
            return None;
        }
        return Some(Fault::alone(Why::ListenerWorse(at)));
    }
    let Some(s) = answer(maps, m, t) else {
        return Some(Fault::alone(Why::NoStep(at)));
    };
    if fallen.went_before(maps, round, s, t) {
        return Some(Fault::resting(Why::StepWorse(at), s, t));
    }
    let k = looping(maps, fallen, round, m, t)?;
    Some(Fault::resting(Why::LoopWorse(at, k), k, t))
}

/// Whether t stands before the first one, if there is one.
pub fn is_before(graph: &Graph, t: u32, first: Option<u32>) -> bool
    requires t { t < length graph.now.nodes }
    requires first { IfSome first (λ f. f < length graph.now.nodes) }
    ensures { result ≡ stands_before graph.now t first }
{
    match first {
        None => true,
        Some(first) => graph.location(t) < graph.location(first),
    }
}

// Whether there is a reason against m at a step to t, and t stands before the first one.
fn fails_first(maps: &Maps, fallen: &Fallen, round: u32, m: u32, t: u32, first: Option<u32>) -> bool
    requires cells { AreCells maps.now.graph.now fallen.now.cells }
    requires onwards { AreTold maps.now.graph.now fallen.now.onwards }
    requires single { HasSingleSteps maps.now.graph.now }
    requires m { m < length maps.now.graph.now.nodes }
    requires t { t < length maps.now.graph.now.nodes }
    requires first { IfSome first (λ f. f < length maps.now.graph.now.nodes) }
    ensures { result ≡ (is_some (reason_there (shown maps.now.graph.now) (has_at fallen.now.onwards) (went fallen.now round) m t) && stands_before maps.now.graph.now t first) }
{
    is_before(maps.graph(), t, first) && fault_at(maps, fallen, round, m, t).is_some()
}

// The step of n, first in order of location, at which there is a reason against m.
fn first_failing(maps: &Maps, fallen: &Fallen, round: u32, m: u32, n: u32) -> Option<u32>
    requires cells { AreCells maps.now.graph.now fallen.now.cells }
    requires onwards { AreTold maps.now.graph.now fallen.now.onwards }
    requires single { HasSingleSteps maps.now.graph.now }
    requires m { m < length maps.now.graph.now.nodes }
    requires n { n < length maps.now.graph.now.nodes }
    ensures some { IfSome result (IsFirstFailing (shown maps.now.graph.now) (has_at fallen.now.onwards) (went fallen.now round) m n) }
    ensures none { IfNone result
        ((t : ℕ) → IsTrue (has_step maps.now.graph.now n t) → is_some (reason_there (shown maps.now.graph.now) (has_at fallen.now.onwards) (went fallen.now round) m t) ≡ false) }
{
    let mut first = None;
    for t in maps.successors(n) {
        let fails = fails_first(maps, fallen, round, m, *t, first);
        if fails {
            first = Some(*t);
        }
    }
    first
}

/// The reason for which m above n goes in this round.
pub fn fault_of(maps: &Maps, fallen: &Fallen, claimed: &LocSet, round: u32, m: u32, n: u32) -> Fault
    requires cells { AreCells maps.now.graph.now fallen.now.cells }
    requires onwards { AreTold maps.now.graph.now fallen.now.onwards }
    requires graph { IsGraph maps.now.graph.now }
    requires single { HasSingleSteps maps.now.graph.now }
    requires m { m < length maps.now.graph.now.nodes }
    requires n { n < length maps.now.graph.now.nodes }
    requires fails { IsTrue (fails (view_of maps.now.graph.now claimed.now) (has_at fallen.now.onwards) (went fallen.now round) m n) }
    ensures reason { IsReason (view_of maps.now.graph.now claimed.now) (has_at fallen.now.onwards) (went fallen.now round) m n result.why }
    ensures rests { RestsOn (shown maps.now.graph.now) m n result }
{
    if is_outranked(maps.graph(), claimed, m, n) {
        return Fault::alone(Why::RankWorse);
    }
    let t = first_failing(maps, fallen, round, m, n).unwrap();
    fault_at(maps, fallen, round, m, t).unwrap()
}
