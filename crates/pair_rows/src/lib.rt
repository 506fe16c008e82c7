//! The laws of the rows of a place in the graph of a pair of cases: those that are met there are all, the least node of each
//! shows its first walk, and they can be noted one by one; and which graphs show the ranks that a policy gives. Of code there
//! are only the values that they speak of.
//!
//! The graph of the pairs of nodes of two cases has what is needed (`pair_graph`): a walk leads to one of its nodes, and the ranks of that
//! node's two parts are the ranks that the policies give the walk. So the rows of a router are those of the nodes at it, and the rows of its
//! session to a peer are those of the nodes at the peer to which nodes at the router step (`specs/Meetings`). The walk of a session is then
//! the peer and the walk of the node at the router: the node at the peer has many nodes before it, also such at other routers.
//!
//! Nodes are numbered by their first walks. So the least node with which a row is met at a place shows the first walk of the place that has
//! the row (`proofs/FirstWalks`). And rows can be noted one meeting after the other, in order, each with its least node (`proofs/NotedRows`).
//!
//! That the two graphs say of walks what the policies say (`ShowsRanks`) is a premise of these. The trimmed graphs of cases do
//! (`proofs/CaseRanks`), and so does no graph at all where a policy permits no walk.
//!
//! Compiling doesn't need it.
//!
//! It knows nothing of how rows are told.
#![tactic(auto)]

mod laws;
mod values;

pub use laws::{
    faithful_graphs_show_ranks, least_nodes_show_first_walks, met_rows_are_those_of_walks,
    no_graph_shows_no_walk, rows_are_noted_one_by_one,
};
pub use values::{FirstRow, Met};
