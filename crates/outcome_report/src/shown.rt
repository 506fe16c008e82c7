//! What an outcome shows.
ghost use Rattle.std.specs.Prelude.{◌≡◌, ◌∷◌, IfOk};

use crate::scene::Scene;
use net_base::Loc;
use outcome_claims::ReportedOutcome;
use std::alloc::{AllocError, Global};

/// A path with a location in front.
pub fn with_front(alloc: Global, first: Loc, rest: &[Loc]) -> Result<Vec<Loc>, AllocError>
    ensures { IfOk result (λ path. path.items ≡ first ∷ rest.now) }
{
    let mut path = Vec::new(alloc);
    path.push(first)?;
    path.extend_from_slice(rest)?;
    Ok(path)
}

impl Scene for ReportedOutcome<'_> {
    ghost use Rattle.outcome_report.specs.Situations.{shown_in};

    ghost shown = { shown_in };

    fn is_dead(&self, at: Loc) -> bool {
        self.scenario.is_dead(at)
    }

    fn path(&self, at: Loc) -> Option<&[Loc]> {
        Some(self.outcome.route_at(at)?.path.as_slice())
    }

    /// The path that the peer is offered.
    fn offer(&self, alloc: Global, router: Loc, peer: Loc) -> Result<Option<Vec<Loc>>, AllocError> {
        match self.offered(router, peer) {
            None => Ok(None),
            Some(path) => Ok(Some(with_front(alloc, peer, path)?)),
        }
    }
}
