//! The search that marks what can be reached.
ghost use Rattle.std.specs.Prelude.{◌≡◌, ◌<◌, ◌==◌, ◌↔◌, All, ℕ, false, [], IfOk, OnOk, IsTrue, length, replicate, vec_len};
ghost use Rattle.reach_prune.specs.Searches.{AreLists, IsReached, is_marked};

use bit_rows::NodeList;
use std::alloc::{AllocError, Global};

// A search that has come some way: the nodes that are marked, and those of them whose neighbours it
// has not come to yet.
#[derive(Drop)]
struct Search {
    marks: Vec<bool>,
    waiting: Vec<u32>,
}

impl Search {
    ghost use Rattle.reach_prune.specs.Searches.{Visits, is_among};

    // A search among so many nodes that has come to none.
    fn new(alloc: Global, size: usize) -> Result<Search, AllocError>
        ensures marks { IfOk result (λ s. s.marks.items ≡ replicate size false) }
        ensures waiting { IfOk result (λ s. s.waiting.items ≡ []) }
    {
        Ok(Search {
            marks: vec![in alloc; false; size]?,
            waiting: Vec::new(alloc),
        })
    }

    // Comes to a node.
    fn visit(&mut self, node: u32) -> Result<(), AllocError>
        requires { node < vec_len self.old.marks }
        ensures { OnOk result (Visits (λ n. node == n) self.old self.new) }
    {
        if !self.marks[node as usize] {
            self.marks[node as usize] = true;
            self.waiting.push(node)?;
        }
        Ok(())
    }

    // Comes to some nodes, one after another.
    fn visit_each(&mut self, nodes: &[u32]) -> Result<(), AllocError>
        requires { All (λ n. n < vec_len self.old.marks) nodes.now }
        ensures { OnOk result (Visits (is_among nodes.now) self.old self.new) }
    {
        for node in nodes {
            self.visit(*node)?;
        }
        Ok(())
    }
}

/// Marks the nodes to which lists of neighbours lead from the first nodes, which are marked too.
pub fn reached(alloc: Global, lists: &[NodeList], first: &[u32]) -> Result<Vec<bool>, AllocError>
    requires lists { AreLists lists.now }
    requires first { All (λ n. n < length lists.now) first.now }
    ensures size { IfOk result (λ marks. vec_len marks ≡ length lists.now) }
    ensures marks { IfOk result (λ marks. (n : ℕ) → n < length lists.now → IsTrue (is_marked marks.items n) ↔ IsReached lists.now first.now n) }
{
    let mut search = Search::new(alloc, lists.len())?;
    search.visit_each(first)?;
    'search: while let Some(node) = search.waiting.pop() {
        search.visit_each(lists[node as usize].as_slice())?;
    }
    Ok(search.marks)
}
