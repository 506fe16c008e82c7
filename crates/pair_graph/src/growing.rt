//! The pairs that walks reach, numbered in breadth-first order, and the steps between them.
ghost use Rattle.std.specs.Prelude.{◌≡◌, ◌<◌, ◌≤◌, ◌+◌, [], ℕ, Some, IfErr, IfOk, IsErrOf, OnOk, length, map, option_map, slice_get};
ghost use Rattle.graph_base.specs.Graphs.{PlainGraph};
ghost use Rattle.graph_base.specs.declared.graph.TheConstants.{MAX_NODES as most_nodes};
ghost use Rattle.pair_graph.specs.declared.pair.NodePair.{NodePair as PlainPair};
ghost use Rattle.pair_graph.specs.Growth.{IsExtended, IsGrown};
ghost use Rattle.pair_graph.specs.Made.{pair_node};
ghost use Rattle.pair_graph.specs.Nexts.{AreNexts};
ghost use Rattle.pair_graph.specs.Pairs.{start_pair, step_pair, walks_of};
ghost use Rattle.pair_graph.specs.Room.{PassesRoom};
ghost use Rattle.pair_graph.specs.Sides.{AreSides};

use crate::fault::PairFault;
use crate::pair::NodePair;
use crate::sides::Sides;
use graph_base::{MAX_NODES, Node};
use indexmap::IndexSet;
use net_base::List;
use std::alloc::{AllocError, Global};

/// Pairs in the order in which they are found, and the steps between them.
#[derive(Drop)]
pub(crate) struct Growing {
    pub(crate) pairs: IndexSet<NodePair>,
    /// For each pair that is no start the one from which it was found.
    pub(crate) before: Vec<u32>,
    pub(crate) steps: Vec<(u32, u32)>,
}

impl Growing {
    /// No pair yet, with room for so many at once.
    pub(crate) fn new(alloc: Global, count: usize) -> Result<Growing, AllocError>
        ensures pairs { IfOk result (λ growing. growing.pairs.keys ≡ []) }
        ensures before { IfOk result (λ growing. growing.before.items ≡ []) }
        ensures steps { IfOk result (λ growing. growing.steps.items ≡ []) }
    {
        Ok(Growing {
            pairs: IndexSet::with_capacity(alloc, count)?,
            before: Vec::with_capacity(alloc, count)?,
            steps: Vec::new(alloc),
        })
    }

    // The number of a pair. It is put behind the others, as found from this one, where it isn't among them.
    fn number_of(&mut self, from: u32, pair: NodePair) -> Result<u32, PairFault>
        requires few { length self.old.pairs.keys ≤ most_nodes }
        requires size { length self.old.before.items ≡ length self.old.pairs.keys }
        ensures extended { IfOk result (λ n. IsExtended self.old.pairs.keys self.old.before.items from pair n self.new.pairs.keys self.new.before.items) }
        ensures steps { self.new.steps ≡ self.old.steps }
        ensures errors { IfErr result (λ e. e ≡ PairFault.NoMemory) }
    {
        if self.pairs.len() >= MAX_NODES {
            return Err(PairFault::NoMemory);
        }
        let (number, is_new) = self.pairs.insert_full(pair)?;
        if is_new {
            self.before.push(from)?;
        }
        Ok(number as u32)
    }

    /// Adds the starts of walks, in order of location.
    pub(crate) fn add_starts(&mut self, alloc: Global, sides: &Sides) -> Result<(), PairFault>
        requires pairs { self.old.pairs.keys ≡ [] }
        requires before { self.old.before.items ≡ [] }
        ensures begun { (g h : PlainGraph) → AreSides g h sides.now → OnOk result (AreNexts (start_pair g h) self.new.pairs.keys) }
        ensures few { OnOk result (length self.new.pairs.keys ≤ most_nodes) }
        ensures size { OnOk result (length self.new.before.items ≡ length self.new.pairs.keys) }
        ensures steps { OnOk result (self.new.steps ≡ self.old.steps) }
        ensures errors { IfErr result (λ e. e ≡ PairFault.NoMemory) }
    {
        let mut starts = Vec::new(alloc);
        sides.starts(&mut starts)?;
        for i in 0..starts.len() {
            self.number_of(0, starts[i])?;
        }
        Ok(())
    }

    // The pair with a number, if there is one.
    fn pair(&self, number: u32) -> Option<NodePair>
        ensures { result ≡ slice_get self.now.pairs.keys number }
    {
        self.pairs.get_index(number as usize).copied()
    }

    // Adds the step of the pair with a number to the next one.
    fn ask(&mut self, number: u32, next: NodePair, room: u32) -> Result<(), PairFault>
        requires few { length self.old.pairs.keys ≤ most_nodes }
        requires size { length self.old.before.items ≡ length self.old.pairs.keys }
        requires room { length self.old.steps.items ≤ room }
        ensures grown { (g h : PlainGraph) (starts : ℕ) (x : PlainPair) → slice_get self.old.pairs.keys number ≡ Some x → step_pair g h x next.place ≡ Some next
            → IsGrown (walks_of g h) starts self.old.pairs.keys self.old.before.items self.old.steps.items number next.place
            → OnOk result (IsGrown (walks_of g h) starts self.new.pairs.keys self.new.before.items self.new.steps.items number (next.place + 1)) }
        ensures many { (g h : PlainGraph) (starts : ℕ) (x : PlainPair) → slice_get self.old.pairs.keys number ≡ Some x → step_pair g h x next.place ≡ Some next
            → IsGrown (walks_of g h) starts self.old.pairs.keys self.old.before.items self.old.steps.items number next.place
            → IsErrOf result PairFault.TooManySteps → PassesRoom g h room }
        ensures few { OnOk result (length self.new.pairs.keys ≤ most_nodes) }
        ensures size { OnOk result (length self.new.before.items ≡ length self.new.pairs.keys) }
        ensures room { OnOk result (length self.new.steps.items ≤ room) }
        ensures there { (x : PlainPair) → slice_get self.old.pairs.keys number ≡ Some x → OnOk result (slice_get self.new.pairs.keys number ≡ Some x) }
    {
        if self.steps.len() >= room as usize {
            return Err(PairFault::TooManySteps);
        }
        let to = self.number_of(number, next)?;
        self.steps.push((number, to))?;
        Ok(())
    }

    // Adds the steps of a pair, in order of location.
    fn ask_all(
        &mut self,
        number: u32,
        pair: &NodePair,
        sides: &Sides,
        nexts: &mut Vec<NodePair>,
        room: u32,
    ) -> Result<(), PairFault>
        requires few { length self.old.pairs.keys ≤ most_nodes }
        requires size { length self.old.before.items ≡ length self.old.pairs.keys }
        requires room { length self.old.steps.items ≤ room }
        requires there { slice_get self.old.pairs.keys number ≡ Some pair.now }
        ensures grown { (g h : PlainGraph) (starts : ℕ) → AreSides g h sides.now
            → IsGrown (walks_of g h) starts self.old.pairs.keys self.old.before.items self.old.steps.items number 0
            → OnOk result (IsGrown (walks_of g h) starts self.new.pairs.keys self.new.before.items self.new.steps.items (number + 1) 0) }
        ensures few { OnOk result (length self.new.pairs.keys ≤ most_nodes) }
        ensures size { OnOk result (length self.new.before.items ≡ length self.new.pairs.keys) }
        ensures many { (g h : PlainGraph) (starts : ℕ) → AreSides g h sides.now
            → IsGrown (walks_of g h) starts self.old.pairs.keys self.old.before.items self.old.steps.items number 0
            → IsErrOf result PairFault.TooManySteps → PassesRoom g h room }
        ensures room { OnOk result (length self.new.steps.items ≤ room) }
    {
        sides.steps(pair, nexts)?;
        for i in 0..nexts.len() {
            self.ask(number, nexts[i], room)?;
        }
        Ok(())
    }

    /// Adds all pairs that walks reach, with at most so many steps.
    pub(crate) fn walk(&mut self, alloc: Global, sides: &Sides, room: u32) -> Result<(), PairFault>
        requires few { length self.old.pairs.keys ≤ most_nodes }
        requires size { length self.old.before.items ≡ length self.old.pairs.keys }
        requires no_steps { self.old.steps.items ≡ [] }
        ensures grown { (g h : PlainGraph) (starts : ℕ) → AreSides g h sides.now
            → IsGrown (walks_of g h) starts self.old.pairs.keys self.old.before.items self.old.steps.items 0 0
            → OnOk result ((k : ℕ) × (length self.new.pairs.keys ≤ k)
            × IsGrown (walks_of g h) starts self.new.pairs.keys self.new.before.items self.new.steps.items k 0) }
        ensures many { (g h : PlainGraph) (starts : ℕ) → AreSides g h sides.now
            → IsGrown (walks_of g h) starts self.old.pairs.keys self.old.before.items self.old.steps.items 0 0
            → IsErrOf result PairFault.TooManySteps → PassesRoom g h room }
        ensures room { OnOk result (length self.new.steps.items ≤ room) }
    {
        let mut nexts = Vec::new(alloc);
        for number in 0..u32::MAX {
            let Some(pair) = self.pair(number) else {
                return Ok(());
            };
            self.ask_all(number, &pair, sides, &mut nexts, room)?;
        }
        Err(PairFault::NoMemory)
    }

    /// The count of pairs.
    pub(crate) fn len(&self) -> u32
        requires { length self.now.pairs.keys ≤ most_nodes }
        ensures { result ≡ length self.now.pairs.keys }
    {
        self.pairs.len() as u32
    }

    // The pair with a number.
    fn item(&self, number: usize) -> NodePair
        requires { number < length self.now.pairs.keys }
        ensures { slice_get self.now.pairs.keys number ≡ Some result }
    {
        let Some(pair) = self.pairs.get_index(number) else {
            unreachable!()
        };
        *pair
    }

    // The node of a pair.
    fn node(&self, number: usize) -> Node
        requires { number < length self.now.pairs.keys }
        ensures { option_map pair_node (slice_get self.now.pairs.keys number) ≡ Some result }
    {
        let Some(pair) = self.pairs.get_index(number) else {
            unreachable!()
        };
        Node {
            loc: pair.place,
            listener: false,
            rank: None,
        }
    }

    /// The node of each pair.
    pub(crate) fn nodes(&self, alloc: Global) -> Result<List<Node>, AllocError>
        ensures { IfOk result (λ nodes. nodes ≡ map pair_node self.now.pairs.keys) }
    {
        let mut nodes = Vec::with_capacity(alloc, self.pairs.len())?;
        for number in 0..self.pairs.len() {
            nodes.push(self.node(number))?;
        }
        Ok(List::from_vec(nodes))
    }

    /// The pairs in their order.
    pub(crate) fn listed(&self, alloc: Global) -> Result<List<NodePair>, AllocError>
        ensures { IfOk result (λ pairs. pairs ≡ self.now.pairs.keys) }
    {
        let mut pairs = Vec::with_capacity(alloc, self.pairs.len())?;
        for number in 0..self.pairs.len() {
            pairs.push(self.item(number))?;
        }
        Ok(List::from_vec(pairs))
    }

    /// For each pair the one from which it was found, and the steps.
    pub(crate) fn into_parts(self) -> (List<u32>, List<(u32, u32)>)
        ensures before { result.0 ≡ self.before.items }
        ensures steps { result.1 ≡ self.steps.items }
    {
        (List::from_vec(self.before), List::from_vec(self.steps))
    }
}
