//! Configurations, and what their lines make of a route.
//!
//! A configuration (`Config`) has the patterns of each class and a block for each router. The class of a prefix, from 1, is
//! the first one with a pattern that contains it. A router's block has the lines of its own routes, and for each neighbour
//! the lines by which it imports and exports. `specs/Configs` has the rules that every configuration keeps (`IsConfig`):
//! numbers in their ranges, lines in ascending order, no two routers with one name, number or identifier.
//!
//! What lines make of a route is said in `specs/Lines` and computed by three functions. `export_of` gives the tag that goes
//! with a route over a session. `import_of` gives the tag and the preference (LOCAL_PREF, RFC 4271, 5.1.5) that a router
//! gives what a neighbour sends. `own_tag` gives the tag of a router's own route: that of the `originate` line with the
//! prefix's class and the prefix, or none. The preference of such a route is 0, which nobody compares.
//!
//! A route is refused where its AS_PATH has the importer's number (RFC 4271, 9.1.2) or, where a peer sends it, the number
//! of any router. Communities that a peer sends are ignored, and tags are taken off towards peers.
//!
//! An import or an export line is found by halving, since lines ascend. A router's block is first sought in the router's
//! own place, where compiled configurations have it, and then by its name.
//!
//! It knows nothing of policies' texts, graphs and evidence.
#![tactic(auto)]

mod blocks;
mod config;
mod lines;
mod route;
mod search;

pub use blocks::{class_of, router_block, session_block};
pub use config::{Config, Export, Import, Origination, RouterConfig, Session};
pub use lines::{export_by, export_of, import_by, import_of, own_tag};
pub use route::{NO_TAG, Route};
