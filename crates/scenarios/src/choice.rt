//! What routers are given, beside what they hold.
ghost use Rattle.std.specs.Prelude.{◌≡◌, ◌<◌, ◌&&◌, ◌||◌, ◌==◌, ℕ, false, option_map};
ghost use Rattle.std.specs.Option.{option_map_or};
ghost use Rattle.net_base.specs.declared.limits.TheConstants.{LOCATIONS};
ghost use Rattle.net_base.specs.Sets.{holds};
ghost use Rattle.scenarios.specs.Readings.{route_of};
ghost use Rattle.scenarios.specs.Situations.{AreChoices, IsSituation, held_from, outdone_from};
ghost use Rattle.scenarios.specs.Tests.{exceeds as higher_than, same_route};

use crate::gifts::{Imported, is_made};
use crate::situation::Situation;
use config_base::Route;
use net_base::{Loc, LocSet};

/// The routers that some neighbour gives the very route that they hold, and those that some neighbour gives a route of a higher
/// preference than it, or any where they hold none.
#[derive(Clone, Copy)]
pub struct Choices {
    /// The routers that some neighbour gives the very route that they hold.
    pub given: LocSet,
    /// The routers that some neighbour gives a route of a higher preference than theirs, or any where they hold none.
    pub outdone: LocSet,
}

// Whether a preference is higher than that of the route that is held; any is, where none is held.
fn exceeds(pref: u32, held: Option<&Route>) -> bool
    ensures { result ≡ higher_than pref (option_map (λ h. h.now.pref) held.entry) }
{
    match held {
        None => true,
        Some(route) => route.pref < pref,
    }
}

// Whether the route that a router holds is what it makes of what a neighbour gives.
fn is_held(imported: &Imported<'_>, at: Loc, held: Option<&Route>) -> bool
    ensures { result ≡ option_map_or (λ h. same_route (route_of at imported.now) h.now) held.entry false }
{
    match held {
        None => false,
        Some(route) => is_made(imported, at, route),
    }
}

// The set, with one location more where it belongs to it.
fn with_if(set: LocSet, at: Loc, belongs: bool) -> LocSet
    requires { at < LOCATIONS }
    ensures { (r : ℕ) → holds result r ≡ (holds set r || (r == at && belongs)) }
{
    if belongs { set.with(at) } else { set }
}

impl<'a> Situation<'a> {
    // What is known of choices, with what one neighbour gives one router.
    fn with_gift(&self, choices: Choices, from: Loc, at: Loc) -> Choices
        requires situation { IsSituation self.now }
        requires place { at < LOCATIONS }
        ensures given { (r : ℕ) → holds result.given r ≡ (holds choices.given r || (r == at && held_from self.now from at)) }
        ensures outdone { (r : ℕ) → holds result.outdone r ≡ (holds choices.outdone r || (r == at && outdone_from self.now from at)) }
    {
        match self.given(&from, at) {
            None => choices,
            Some(imported) => {
                let held = self.outcome.route_at(at);
                Choices {
                    given: with_if(choices.given, at, is_held(&imported, at, held)),
                    outdone: with_if(choices.outdone, at, exceeds(imported.pref, held)),
                }
            }
        }
    }

    /// What the routers are given, beside what they hold: each link is looked at once.
    pub fn choices(&self) -> Choices
        requires { IsSituation self.now }
        ensures { AreChoices self.now result }
    {
        let mut choices = Choices {
            given: LocSet::new(),
            outdone: LocSet::new(),
        };
        for link in self.net.links() {
            choices = self.with_gift(choices, link.1, link.0);
            choices = self.with_gift(choices, link.0, link.1);
        }
        choices
    }
}
