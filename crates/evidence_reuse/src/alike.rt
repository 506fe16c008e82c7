//! Whether two cases have the same graph, and numbers that stand alike.
ghost use Rattle.std.specs.Prelude.{◌≡◌, ◌==◌, ◌↔◌, IsTrue, max};
ghost use Rattle.std.specs.List.{fold};
ghost use Rattle.free_tags.specs.Taken.{greatest};
ghost use Rattle.evidence_renewal.specs.Renewed.{raised};
ghost use Rattle.evidence_reuse.specs.Staying.{IsSameCase, are_raised as are_all_raised, rise as rise_of};

use evidence_base::CaseEvidence;
use graph_base::{Graph, Node};

// Whether two lists have the same nodes in the same order.
fn same_nodes(one: &[Node], other: &[Node]) -> bool
    ensures { IsTrue result ↔ one.now ≡ other.now }
{
    one == other
}

// Whether two lists have the same starts in the same order.
fn same_starts(one: &[u32], other: &[u32]) -> bool
    ensures { IsTrue result ↔ one.now ≡ other.now }
{
    one == other
}

// Whether two lists have the same steps in the same order.
fn same_steps(one: &[(u32, u32)], other: &[(u32, u32)]) -> bool
    ensures { IsTrue result ↔ one.now ≡ other.now }
{
    one == other
}

// Whether two graphs are the same.
fn same_graph(one: &Graph, other: &Graph) -> bool
    ensures { IsTrue result ↔ one.now ≡ other.now }
{
    if !same_nodes(one.nodes(), other.nodes()) {
        return false;
    }
    if !same_starts(one.starts(), other.starts()) {
        return false;
    }
    same_steps(one.steps(), other.steps())
}

// The greatest of some numbers, or 0 where there is none.
fn greatest_of(numbers: &[u32]) -> u32
    ensures { result ≡ greatest numbers.now }
{
    let mut most = 0;
    for number in numbers {
        most = most.max(*number);
    }
    most
}

// By how much the greatest number is raised.
fn rise(numbers: &[u32], others: &[u32]) -> u32
    ensures { result ≡ rise_of numbers.now others.now }
{
    greatest_of(others).saturating_sub(greatest_of(numbers))
}

// Whether the second number is the first one, raised by so much.
fn is_raised(by: u32, number: u32, other: u32) -> bool
    ensures { result ≡ (other == raised by number) }
{
    if number == 0 {
        return other == 0;
    }
    u64::from(other) == u64::from(number) + u64::from(by)
}

// Whether the second numbers are the first ones, each raised by so much.
fn are_raised(by: u32, numbers: &[u32], others: &[u32]) -> bool
    ensures { result ≡ are_all_raised by numbers.now others.now }
{
    if numbers.len() != others.len() {
        return false;
    }
    for i in 0..numbers.len() {
        if !is_raised(by, numbers[i], others[i]) {
            return false;
        }
    }
    true
}

/// Whether an old case has the graph of a new one, and its numbers, each raised by as much.
pub(crate) fn is_same_case(case: &CaseEvidence, before: &CaseEvidence) -> bool
    ensures { IsTrue result ↔ IsSameCase case.now before.now }
{
    if !same_graph(before.graph(), case.graph()) {
        return false;
    }
    let by = rise(case.prefs(), before.prefs());
    are_raised(by, case.prefs(), before.prefs())
}
