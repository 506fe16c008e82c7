//! What is told.
use net_base::LocSet;
use outcome_claims::Claims;
use scenarios::Situation;

/// An outcome with what it is of, its multipath sets, and the sources that are claimed for its prefix.
#[derive(Drop)]
pub(crate) struct Told<'t, 's> {
    pub(crate) situation: &'t Situation<'s>,
    pub(crate) sets: &'t [LocSet],
    pub(crate) claims: Claims<'s>,
}
