//! Who is claimed for a prefix, and what an outcome offers to peers: what reports are made of, before anything is written.
//!
//! `claims_of` gives the sources that the policy claims for a prefix. To find them by the policy's words alone, one would
//! have to search for walks. They are read off the graph of the prefix's case instead, by its ranked nodes, since evidence
//! that passes shows them. `Claims` keeps the statement beside the sources, so that a rank is asked of the path alone.
//!
//! A `ReportedOutcome` is an outcome with what it is of. Which links are dead, and over which links routes go on to peers, is
//! marked once, when it is made, with one mark for each link; after that each offer is a look at two marks. Over which links
//! routes go on is told by the steps of the graph and the tags of the routes, so no configuration is made for it.
//!
//! `replay`, `audit`, `multipath` and the commands on cuts alone need it.
//!
//! It knows nothing of texts.
#![tactic(auto)]

mod claims;
mod marks;
mod offers;
mod reported;

pub use claims::{Claims, claims_of};
pub use reported::ReportedOutcome;
