//! Whose multipath sets are others.
ghost use Rattle.std.specs.Prelude.{◌≡◌, ◌==◌, ◌&&◌, ◌||◌, ℕ, false};
ghost use Rattle.std.specs.List.{list_any};
ghost use Rattle.std.specs.Option.{option_map_or};
ghost use Rattle.net_base.specs.Sets.{holds};
ghost use Rattle.scenarios.specs.Tests.{far_end};
ghost use Rattle.whatif_report.specs.Changing.{IsChange, shifts_in};
ghost use Rattle.whatif_report.specs.Shifting.{differ as are_different};

use crate::moving::is_cut;
use impact_law::Cut;
use multipath_report::is_member;
use net_base::{Loc, LocSet, known_net};
use scenarios::Situation;

/// A cut, with an outcome before it and one after.
#[derive(Drop)]
pub(crate) struct Change<'t, 's, 'u> {
    pub(crate) before: &'t Situation<'s>,
    pub(crate) after: &'t Situation<'u>,
    pub(crate) cut: Cut,
}

// Whether one of two is so and the other isn't.
fn differ(one: bool, other: bool) -> bool
    ensures { result ≡ are_different one other }
{
    if one { !other } else { other }
}

impl Change<'_, '_, '_> {
    // Whether a neighbour is in the multipath set of a location before or after, and not both times. It isn't asked of what is cut.
    fn shifts(&self, at: Loc, next: Loc) -> bool
        requires { IsChange self.now }
        ensures { result ≡ shifts_in self.now next at }
    {
        !is_cut(&self.cut, at)
            && differ(
                is_member(self.before, at, next),
                is_member(self.after, at, next),
            )
    }

    // A set, with one location more if a neighbour is in its multipath set before or after, and not both times.
    fn marked(&self, marks: LocSet, at: Loc, next: Loc) -> LocSet
        requires { IsChange self.now }
        ensures { (r : ℕ) → holds result r ≡ (holds marks r || (r == at && shifts_in self.now next at)) }
    {
        known_net(self.before.net);
        if self.shifts(at, next) {
            marks.with(at)
        } else {
            marks
        }
    }

    /// The locations whose multipath sets are others after, as far as some links tell.
    pub(crate) fn shifted(&self, links: &[(Loc, Loc)]) -> LocSet
        requires { IsChange self.now }
        ensures { (r : ℕ) → holds result r ≡ list_any (λ link. option_map_or (λ z. shifts_in self.now z r) (far_end r link) false) links.now }
    {
        let mut marks = LocSet::new();
        for link in links {
            marks = self.marked(marks, link.0, link.1);
            marks = self.marked(marks, link.1, link.0);
        }
        marks
    }
}
