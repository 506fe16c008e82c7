//! What two policies change for the prefixes of one pair of cases: in what each place differs, which rows and walks show it,
//! and which routers carry in one policy alone.
//!
//! The two graphs of a pair show what the policies say of the walks of each of its prefixes (`specs/Shown`), so what changes is read off
//! the graph of their pairs of nodes. Each place has its rows (`place_rows`), and these have words and shown rows (`row_words`). Places
//! with the same of both are one kind (`kinds`); mostly those of many places one after the other are the same. A kind shows the walks of one of its places, since two walks of different sources tell no
//! order: of the first place that shows most rows without a loop, which mostly is the first one (`example`). So what changes is one thing, with its walks.
//!
//! Which routers carry is read off the nodes of either graph: each node of a trimmed graph is on some permitted walk (`carriers`).
//!
//! What is said of the result speaks of walks alone (`specs/Changes`). The order of places is that of routers, then of sessions.
//!
//! Compiling doesn't need it.
//!
//! It knows nothing of how graphs are made, or how a change is told.
#![tactic(auto)]

mod carriers;
mod change;
mod kinds;
mod laws;
mod places;
mod walks;
mod ways;

pub use change::{ChangedPair, pair_change};
pub use laws::{faithful_graphs_show_walks, no_graph_shows_no_walks};
