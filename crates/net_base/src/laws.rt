//! What sets of locations are.
ghost use Rattle.std.specs.Prelude.{◌≡◌, ◌<◌, ℕ};
ghost use Rattle.net_base.specs.declared.limits.TheConstants.{LOCATIONS};
ghost use Rattle.net_base.specs.declared.loc.LocSet.{LocSet};
ghost use Rattle.net_base.specs.Sets.{holds, IsWords};

/// Two sets of the same locations are one set.
pub fn sets_of_the_same_locations_are_one()
    ensures { (s t : LocSet) → IsWords s → IsWords t → ((l : ℕ) → l < LOCATIONS → holds s l ≡ holds t l) → s ≡ t }
{}
