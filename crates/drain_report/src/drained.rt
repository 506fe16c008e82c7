//! What carries nothing.
use impact_law::Cut;
use net_base::List;

/// The links and routers that carry nothing, and how many there are that live.
#[derive(Drop)]
pub struct Drain {
    /// The links that carry nothing, in the network's order, and then the routers, by location.
    pub free: List<Cut>,
    /// How many links and routers live, whether they carry something or not.
    pub live: usize,
}
