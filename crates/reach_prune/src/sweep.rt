//! One search for each node, which takes over what earlier searches found.
ghost use Rattle.std.specs.Prelude.{◌≡◌, ◌+◌, ◌<◌, ◌≤◌, [], IfOk, OnOk, length};
ghost use Rattle.graph_base.specs.declared.graph.TheConstants.{MAX_NODES};
ghost use Rattle.reach_prune.specs.declared.steps.Way.{Way};
ghost use Rattle.reach_prune.specs.Searches.{AreLists};
ghost use Rattle.reach_prune.specs.Sweeps.{Comes, Swept};

use crate::steps::Way;
use bit_rows::{NodeList, Rows};
use input_output::NoMemory;
use std::alloc::{AllocError, Global};

/// Rows of what is found from each node, and the nodes of the present search whose neighbours it has not come to yet.
#[derive(Drop)]
pub struct Sweep {
    /// A row for each node, with a bit for each node to which the searches so far lead from it.
    pub rows: Rows,
    waiting: Vec<u32>,
}

impl Sweep {
    /// A sweep of so many nodes, before the first search.
    pub fn new(alloc: Global, lists: &[NodeList]) -> Result<Sweep, NoMemory>
        requires { length lists.now ≤ MAX_NODES }
        ensures { IfOk result (λ s. (way : Way) → Swept way lists.now 0 s) }
    {
        let size = lists.len() as u32;
        Ok(Sweep {
            rows: Rows::new(alloc, size, size)?,
            waiting: Vec::new(alloc),
        })
    }

    // Comes to a node in the search from another: takes its row over if that is finished.
    fn come_to(&mut self, node: u32, next: u32, is_finished: bool) -> Result<(), AllocError>
        requires node { node < self.old.rows.count }
        requires next { next < self.old.rows.count }
        requires square { self.old.rows.bits ≡ self.old.rows.count }
        ensures { OnOk result (Comes node next is_finished self.old self.new) }
    {
        if self.rows.get(node, next) {
            return Ok(());
        }
        if is_finished {
            self.rows.or_row(node, next);
        } else {
            self.waiting.push(next)?;
            self.rows.set(node, next);
        }
        Ok(())
    }

    /// Searches from the next node of the order.
    pub fn search(&mut self, way: Way, lists: &[NodeList], place: u32) -> Result<(), AllocError>
        requires lists { AreLists lists.now }
        requires few { length lists.now ≤ MAX_NODES }
        requires place { place < length lists.now }
        requires swept { Swept way lists.now place self.old }
        ensures { OnOk result (Swept way lists.now (place + 1) self.new) }
    {
        let size = lists.len() as u32;
        let node = way.nth(size, place);
        self.waiting.push(node)?;
        self.rows.set(node, node);
        'search: while let Some(at) = self.waiting.pop() {
            for next in lists[at as usize].as_slice() {
                let is_finished = way.nth(size, *next) < place;
                self.come_to(node, *next, is_finished)?;
            }
        }
        Ok(())
    }
}
