//! The part of a graph that failures leave, settled front by front: which route each location holds where ties are broken by the full
//! order, and the law of settling by fronts.
//!
//! Each location holds the path with the greatest preference number of those that reach it, of several such paths one with the fewest
//! locations, and of several of those the one over the neighbour with the lowest identifier (RFC 4271, 9.1.2.2, in which the number is the
//! local preference and each location an AS).
//!
//! A router waits for the greatest number of the nodes that are reached at it (`greatest_numbers`). A front is the locations that were
//! settled last. They alone can give a waiting router its best number, since earlier ones would have given it already. A router that still
//! waits is on no settled path. So no path is searched for loops, and a step is looked at once at most: when the location at its beginning
//! is settled. Of what the front offers at the wanted number the lowest identifier is taken (`lowest_offers`). The offers of a front are a
//! table with an entry for each location, made anew. So settling costs that table once for each front, besides the steps and the paths. To
//! deliver routes until nothing changes, as routers do, would look at steps many times.
//!
//! Only lists are known: a graph whose starts and steps are those that live, numbers, and the set of those that choose. What `settle_graph`
//! promises is said of every abstract network of which these lists are the ground (`IsGround`). So the laws of routing meet the code in one
//! place, and what a scenario leaves of a graph is shown by who calls. `routers_are_settled_by_fronts` is the law by which fronts do what
//! rounds over all locations would.
//!
//! Compiling doesn't need it.
//!
//! It knows nothing of policies, and of which failures there are.
#![tactic(auto)]

mod best;
mod by_fronts;
mod fronts;
mod offers;
mod settled;

pub use by_fronts::routers_are_settled_by_fronts;
pub use fronts::settle_graph;
pub use settled::Settled;
