//! Where the walks of a case can stand: a node for each location with what is left of each alternative after a walk that led there, and the
//! steps between them.
//!
//! `standings` goes breadth first from the origins, the way routes travel. Walks go on from origins and routers, and enter whatever is no
//! origin, peers only where the origins are routers. At each step the automaton is asked what is left, and a place where no list can follow
//! any more is left out. What is built is said by a list of standings that has to exist, each once and in the order in which they are met
//! (`IsBuilt`), and there is only one such list (`one_graph_is_built`). It isn't asked that the origins are all peers or all routers: the
//! graph is pinned for any.
//!
//! The automaton is lent and given back with the states that were found, so the next case of the same statement looks these up. Standings
//! are found in a table with a row for each state and a place for each location, since each step asks for one.
//!
//! No more than 4,096 standings are ever held. When there are so many, a further one is looked up before it would be added, so a walk that
//! meets no new one ends with those that it has, and else the fault is `TooMany`. Steps are counted by who calls, once all nodes are known:
//! too many nodes are told before too many steps.
//!
//! This is below the compiler, so that evidence is judged by the same walks without a compiler.
//!
//! It knows nothing of statements, of evidence, and of how much room there is for steps.
#![tactic(auto)]

mod case_graph;
mod fault;
mod found;
mod laws;
mod neighbours;
mod reached;

pub use case_graph::standings;
pub use fault::StandingsFault;
pub use laws::{graphs_hold_what_is_reached, one_graph_is_built};
