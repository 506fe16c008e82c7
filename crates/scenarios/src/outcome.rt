//! Outcomes: what each router holds.
ghost use Rattle.std.specs.Prelude.{◌≡◌, option_map};
ghost use Rattle.outcome_base.specs.Outcomes.{route_at};

use config_base::Route;
use net_base::{List, Loc};

/// What each router holds, in order of location: a route or none.
#[derive(Drop)]
pub struct Outcome {
    /// An entry for each router, in order of location.
    pub routes: List<Option<Route>>,
}

impl Outcome {
    /// The route that a location holds.
    pub fn route_at(&self, at: Loc) -> Option<&Route>
        ensures { option_map (λ h. h.now) result ≡ route_at self.now.routes at }
    {
        match self.routes.as_slice().get(at.number() as usize) {
            Some(Some(route)) => Some(route),
            _ => None,
        }
    }
}
