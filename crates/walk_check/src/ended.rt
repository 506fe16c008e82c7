//! Whether each node of a graph can be reached.
ghost use Rattle.std.specs.Prelude.{◌≡◌, ◌↔◌, ◌<◌, ℕ, IfOk, IsTrue, length};
ghost use Rattle.reach_prune.specs.Searches.{is_marked};
ghost use Rattle.walk_check.specs.Formed.{CanBeReached};

use crate::formed::start_marks;
use graph_base::Graph;
use input_output::NoMemory;
use reach_prune::{Way, marked};
use std::alloc::Global;

// Whether all are marked.
fn are_marked(marks: &[bool]) -> bool
    ensures { IsTrue result ↔ ((n : ℕ) → n < length marks.now → IsTrue (is_marked marks.now n)) }
{
    !marks.contains(&false)
}

// Marks the nodes to which steps lead from those that are marked, as far as one pass over the steps comes to them.
fn pass_on(graph: &Graph, marks: &mut Vec<bool>)
    requires size { length marks.old.items ≡ length graph.now.nodes }
    requires reached { (n : ℕ) → IsTrue (is_marked marks.old.items n) → CanBeReached graph.now n }
    ensures size { length marks.new.items ≡ length graph.now.nodes }
    ensures reached { (n : ℕ) → IsTrue (is_marked marks.new.items n) → CanBeReached graph.now n }
{
    for step in graph.steps() {
        if marks[step.0 as usize] {
            marks[step.1 as usize] = true;
        }
    }
}

/// Whether steps lead to each node from a start. Mostly each node comes behind one that steps to it, and the steps are in order;
/// then one pass over them tells.
pub fn are_ended(alloc: Global, graph: &Graph) -> Result<bool, NoMemory>
    ensures { IfOk result (λ b. IsTrue b ↔ ((n : ℕ) → n < length graph.now.nodes → CanBeReached graph.now n)) }
{
    let mut passed = start_marks(alloc, graph)?;
    pass_on(graph, &mut passed);
    if are_marked(&passed) {
        return Ok(true);
    }
    let marks = marked(alloc, graph, Way::Forward, graph.starts())?;
    Ok(are_marked(&marks))
}
