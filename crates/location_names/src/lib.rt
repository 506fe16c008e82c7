//! What is looked up in a network: the locations of names, and the locations to which each location is linked, as sets.
//!
//! `LocationNames` finds a location by its name with a hash, for the readers of texts that name locations: such a text may
//! have far more names than a network has locations. What is no name of the network has no location, so a reader need not
//! ask first whether it is a name at all.
//!
//! `neighbour_sets` gives a set for each location, found in one pass over the links. It serves where one asks again and
//! again whether two locations are linked (`is_near`), which the list of links answers only by a search.
//!
//! The names are borrowed from the network and not copied.
//!
//! It knows nothing of texts.
#![tactic(auto)]

mod names;
mod near;

pub use names::LocationNames;
pub use near::{is_near, neighbour_sets};
