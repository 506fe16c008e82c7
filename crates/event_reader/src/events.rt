//! Events for a prefix.
use event_base::Event;
use net_base::{List, Prefix};

/// What happens on a network, in order, and the prefix of which routes are asked.
#[derive(Drop)]
pub struct Events {
    /// The prefix of whose routes is asked.
    pub prefix: Prefix,
    /// What happens, in order of the text.
    pub events: List<Event>,
}
