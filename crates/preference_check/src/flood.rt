//! Searches that mark what they come to with a number.
ghost use Rattle.std.specs.Prelude.{◌≡◌, ◌==◌, ◌<◌, All, ℕ, [], None, IfOk, IsTrue, OnOk, length, replicate, vec_len};
ghost use Rattle.reach_prune.specs.Searches.{AreLists};
ghost use Rattle.preference_check.specs.Rows.{has_upto};

use bit_rows::NodeList;
use std::alloc::{AllocError, Global};

/// The numbers of the nodes that were come to, and those of these nodes whose neighbours weren't come to yet.
#[derive(Drop)]
pub struct Flood {
    /// For each node its mark, a preference number, once a search has come to it.
    pub marks: Vec<Option<u32>>,
    waiting: Vec<u32>,
}

impl Flood {
    ghost use Rattle.reach_prune.specs.Searches.{is_among};
    ghost use Rattle.preference_check.specs.Floods.{IsBetweenSearches, Marks};

    /// Nothing among so many nodes has a mark.
    pub fn new(alloc: Global, size: usize) -> Result<Flood, AllocError>
        ensures marks { IfOk result (λ f. f.marks.items ≡ replicate size None) }
        ensures waiting { IfOk result (λ f. f.waiting.items ≡ []) }
    {
        Ok(Flood {
            marks: vec![in alloc; None; size]?,
            waiting: Vec::new(alloc),
        })
    }

    // Comes to a node.
    fn visit(&mut self, node: u32, number: u32) -> Result<(), AllocError>
        requires { node < vec_len self.old.marks }
        ensures { OnOk result (Marks number (λ n. node == n) self.old self.new) }
    {
        if self.marks[node as usize].is_none() {
            self.marks[node as usize] = Some(number);
            self.waiting.push(node)?;
        }
        Ok(())
    }

    // Comes to some nodes, one after another.
    fn visit_each(&mut self, nodes: &[u32], number: u32) -> Result<(), AllocError>
        requires { All (λ n. n < vec_len self.old.marks) nodes.now }
        ensures { OnOk result (Marks number (is_among nodes.now) self.old self.new) }
    {
        for node in nodes {
            self.visit(*node, number)?;
        }
        Ok(())
    }

    /// Marks with a number what lists of neighbours lead to from a node and what has no mark yet.
    pub fn spread(&mut self, lists: &[NodeList], from: u32, number: u32) -> Result<(), AllocError>
        requires lists { AreLists lists.now }
        requires from { from < length lists.now }
        requires settled { IsBetweenSearches lists.now number self.old }
        ensures settled { OnOk result (IsBetweenSearches lists.now number self.new) }
        ensures kept { OnOk result ((n v : ℕ) → IsTrue (has_upto self.old.marks.items n v) → IsTrue (has_upto self.new.marks.items n v)) }
        ensures here { OnOk result (IsTrue (has_upto self.new.marks.items from number)) }
    {
        self.visit(from, number)?;
        'spread: while let Some(node) = self.waiting.pop() {
            self.visit_each(lists[node as usize].as_slice(), number)?;
        }
        Ok(())
    }
}
