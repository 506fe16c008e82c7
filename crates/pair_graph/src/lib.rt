//! The graph of pairs of nodes to which the same walks lead in two graphs, numbered by the first of the shortest walks to each.
//!
//! What two policies say of the walks of a prefix is in two graphs: each walk leads to a node of either one, or to none. Here is a third
//! graph whose nodes stand for the pairs of nodes to which one and the same walk leads. One of the two may be missing, where the walk leads
//! on in one graph alone. So what is asked of a walk in both graphs at once is asked of one node: its two ranks, for one.
//!
//! Pairs are found breadth first: the starts at each location in order, and then, from each pair in the order in which they were found,
//! the pairs to which it steps, in order of location. So a node's number says which walk to it comes first: the nodes with lesser numbers
//! have shorter walks, or as long ones whose last differing place is at a lesser location (`IsInOrder`, `shown_walks_are_in_order`). The walk
//! by which a node is shown is then the first of the shortest ones to it (`shown_walk_is_first`). It goes back over the node from which
//! each was found, which is kept, so that showing many nodes costs no more than their walks.
//!
//! The starts and the steps of each graph are first put in order of location (`side`), which they mostly are. Then the steps of a pair are
//! those of its two nodes, gone over side by side (`merging`): so the time grows with the steps of the pairs. There may be as many pairs as
//! the product of both counts of nodes, so the caller says how many steps there is room for. How many there are is said of the two graphs
//! alone (`HasPairSteps`): in so many ways walks of pairs go on from a pair to a location. So it is one number, and it tells whether there
//! is room (`steps_are_counted_once`).
//!
//! It is made to compare two policies. The two graphs need no rules but those that each graph keeps.
//!
//! Compiling doesn't need it.
//!
//! It knows nothing of networks, policies and ranks.
#![tactic(auto)]

mod fault;
mod growing;
mod laws;
mod merging;
mod pair;
mod pairs;
mod product;
mod runs;
mod side;
mod sides;
mod way;

pub use fault::PairFault;
pub use laws::{
    first_nodes_show_first_walks, shown_walk_is_first, shown_walks_are_in_order,
    steps_are_counted_once,
};
pub use pair::NodePair;
pub use pairs::PairGraph;
pub use product::pair_graph;
