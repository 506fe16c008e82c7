//! Classes that split one another.
ghost use Rattle.std.specs.Prelude.{◌≡◌, ◌==◌, ◌<◌, ◌≤◌, All, IfOk, OnOk, ℕ, filter, length, slice_index_or, if◌then◌else◌};
ghost use Rattle.std.specs.List.{AllByRecursion};
ghost use Rattle.graph_base.specs.Graphs.{IsGraph};
ghost use Rattle.graph_base.specs.Refuting.{HasSingleSteps};
ghost use Rattle.graph_base.specs.Runs.{has_step};
ghost use Rattle.graph_base.specs.declared.graph.TheConstants.{MAX_NODES};
ghost use Rattle.reach_prune.specs.Searches.{AreLists, is_among, is_listed, is_marked};
ghost use Rattle.node_quotient.specs.Alike.{class_in, list_of};
ghost use Rattle.node_quotient.specs.Rounds.{AreClasses};
ghost use Rattle.node_quotient.specs.Splits.{AreSplit, has_mark, is_hit};

use crate::grouping::grouped;
use bit_rows::NodeList;
use graph_base::Graph;
use std::alloc::{AllocError, Global};

// Nodes in classes that bear the numbers of their least nodes, and the classes by which others are still to be split.
#[derive(Drop)]
struct Partition {
    classes: Vec<u32>,
    members: Vec<NodeList>,
    waiting: Vec<u32>,
    waits: Vec<bool>,
    /// The last turn in which a class was looked at.
    met: Vec<u32>,
}

// The nodes of the list that are marked, or those that aren't.
fn chosen(alloc: Global, list: &[u32], marks: &[bool], marked: bool) -> Result<NodeList, AllocError>
    requires { All (λ n. n < length marks.now) list.now }
    ensures { IfOk result (λ chosen. chosen ≡ filter (has_mark marks.now marked) list.now) }
{
    let mut chosen = NodeList::new(alloc);
    for node in list {
        if marks[*node as usize] == marked {
            chosen.push(*node)?;
        }
    }
    Ok(chosen)
}

// Gives each of these places the same item.
fn set_each<T: Copy + Drop>(items: &mut Vec<T>, places: &[u32], item: T)
    requires { All (λ n. n < length items.old.items) places.now }
    ensures size { length items.new.items ≡ length items.old.items }
    ensures items { (d : T) (n : ℕ) → slice_index_or items.new.items n d ≡ (if is_among places.now n then item else slice_index_or items.old.items n d) }
{
    for place in places {
        items[*place as usize] = item;
    }
}

// The nodes that are listed for one of these.
fn all_listed(alloc: Global, lists: &[NodeList], nodes: &[u32]) -> Result<Vec<u32>, AllocError>
    requires { All (λ n. n < length lists.now) nodes.now }
    ensures { IfOk result (λ all. (m : ℕ) → is_among all.items m ≡ is_hit lists.now nodes.now m) }
{
    let mut all = Vec::new(alloc);
    for node in nodes {
        all.extend_from_slice(lists[*node as usize].as_slice())?;
    }
    Ok(all)
}

// The classes, each by its least node.
fn names(alloc: Global, classes: &[u32]) -> Result<Vec<u32>, AllocError>
    requires { length classes.now ≤ MAX_NODES }
    ensures { IfOk result (λ names. AllByRecursion (λ n. n < length classes.now) names.items) }
{
    let mut names = Vec::new(alloc);
    for node in 0..classes.len() {
        if classes[node] as usize == node {
            names.push(node as u32)?;
        }
    }
    Ok(names)
}

impl Partition {
    ghost use Rattle.node_quotient.specs.Partitions.{IsPartition};
    ghost use Rattle.node_quotient.specs.Splits.{AreClear, AreNamed};

    // These classes, which all wait.
    fn new(alloc: Global, classes: Vec<u32>) -> Result<Partition, AllocError>
        requires few { length classes.items ≤ MAX_NODES }
        requires named { AreNamed classes.items }
        ensures partition { IfOk result (IsPartition (length classes.items)) }
        ensures classes { IfOk result (λ p. p.classes.items ≡ classes.items) }
    {
        let size = classes.len();
        Ok(Partition {
            waiting: names(alloc, &classes)?,
            waits: vec![in alloc; true; size]?,
            met: vec![in alloc; u32::MAX; size]?,
            members: grouped(alloc, &classes, size)?,
            classes,
        })
    }

    // Splits a class into its nodes that are marked and the others, where it has both. The part with the least node keeps
    // the number of the class. Where the class waits, both parts do, and else the smaller one.
    fn split(&mut self, alloc: Global, class: u32, marks: &[bool]) -> Result<(), AllocError>
        requires class { class < length marks.now }
        requires partition { IsPartition (length marks.now) self.old }
        ensures partition { OnOk result (IsPartition (length marks.now) self.new) }
        ensures classes { OnOk result (AreSplit (is_marked marks.now) self.old.classes.items self.new.classes.items) }
    {
        let all = self.members[class as usize].as_slice();
        let with_class = marks[class as usize];
        let part = chosen(alloc, all, marks, !with_class)?;
        if part.as_slice().len() == 0 {
            return Ok(());
        }
        let rest = chosen(alloc, all, marks, with_class)?;
        let name = part.as_slice()[0];
        let is_smaller = part.as_slice().len() <= rest.as_slice().len();
        set_each(&mut self.classes, part.as_slice(), name);
        self.members[class as usize] = rest;
        self.members[name as usize] = part;
        let next = if self.waits[class as usize] || is_smaller {
            name
        } else {
            class
        };
        self.wait(next)?;
        Ok(())
    }

    // Lets a class wait.
    fn wait(&mut self, class: u32) -> Result<(), AllocError>
        requires class { class < length self.old.waits.items }
        requires partition { IsPartition (length self.old.waits.items) self.old }
        ensures partition { OnOk result (IsPartition (length self.old.waits.items) self.new) }
        ensures classes { OnOk result (self.new.classes.items ≡ self.old.classes.items) }
    {
        self.waits[class as usize] = true;
        self.waiting.push(class)?;
        Ok(())
    }

    // Splits the class of a node, where it wasn't looked at in this turn.
    fn split_class_of(
        &mut self,
        alloc: Global,
        node: u32,
        marks: &[bool],
        turn: u32,
    ) -> Result<(), AllocError>
        requires node { node < length marks.now }
        requires partition { IsPartition (length marks.now) self.old }
        ensures partition { OnOk result (IsPartition (length marks.now) self.new) }
        ensures classes { OnOk result (AreSplit (is_marked marks.now) self.old.classes.items self.new.classes.items) }
    {
        let class = self.classes[node as usize];
        if self.met[class as usize] == turn {
            return Ok(());
        }
        self.met[class as usize] = turn;
        self.split(alloc, class, marks)
    }

    // Splits each class into the nodes with a step to this class and the others; `before` has the nodes that step to each.
    // No mark is set before this turn and after it.
    fn split_by(
        &mut self,
        alloc: Global,
        before: &[NodeList],
        marks: &mut Vec<bool>,
        class: u32,
        turn: u32,
    ) -> Result<(), AllocError>
        requires class { class < length before.now }
        requires before { AreLists before.now }
        requires marks { length marks.old.items ≡ length before.now }
        requires clear { AreClear marks.old.items }
        requires partition { IsPartition (length before.now) self.old }
        ensures marks { OnOk result (length marks.new.items ≡ length before.now) }
        ensures clear { OnOk result (AreClear marks.new.items) }
        ensures partition { OnOk result (IsPartition (length before.now) self.new) }
        ensures classes { OnOk result (AreSplit (is_hit before.now (list_of self.old.members.items class)) self.old.classes.items self.new.classes.items) }
    {
        self.waits[class as usize] = false;
        let hits = all_listed(alloc, before, self.members[class as usize].as_slice())?;
        set_each(marks, &hits, true);
        for node in &hits {
            self.split_class_of(alloc, *node, marks, turn)?;
        }
        set_each(marks, &hits, false);
        Ok(())
    }
}

/// Classes that split one another until none waits. No nodes that are joined come apart; that all others do is left to be
/// seen. A class waits at first, and one more for each split, so there are no more turns than nodes.
pub fn split_classes(
    alloc: Global,
    graph: &Graph,
    before: &[NodeList],
    classes: Vec<u32>,
) -> Result<Vec<u32>, AllocError>
    requires graph { IsGraph graph.now }
    requires single { HasSingleSteps graph.now }
    requires size { length before.now ≡ length graph.now.nodes }
    requires inside { AreLists before.now }
    requires steps { (a b : ℕ) → is_listed before.now a b ≡ has_step graph.now b a }
    requires given { length classes.items ≡ length graph.now.nodes }
    requires classes { AreClasses graph.now (class_in classes.items) }
    ensures size { IfOk result (λ split. length split.items ≡ length graph.now.nodes) }
    ensures classes { IfOk result (λ split. AreClasses graph.now (class_in split.items)) }
{
    let size = graph.nodes().len();
    let mut marks = vec![in alloc; false; size]?;
    let mut partition = Partition::new(alloc, classes)?;
    for turn in 0..size as u32 {
        if let Some(class) = partition.waiting.pop() {
            partition.split_by(alloc, before, &mut marks, class, turn)?;
        }
    }
    Ok(partition.classes)
}
