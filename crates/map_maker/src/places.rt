//! Places in ascending order, and the lines that deny the patterns there.
ghost use Rattle.std.specs.Prelude.{◌≡◌, ◌<◌, ◌++◌, ℕ, IfOk, false, length, map};
ghost use Rattle.std.specs.Ordering.{nat_cmp};
ghost use Rattle.std.specs.List.{AllByRecursion};
ghost use Rattle.std.specs.List.Sorted.{IsStrictlySortedBy};
ghost use Rattle.route_maps.specs.OfConfig.{line};
ghost use Rattle.map_maker.specs.Keys.{has};
ghost use Rattle.map_maker.specs.Places.{at_places};

use net_base::{List, Pattern};
use route_maps::ListLine;
use std::alloc::AllocError;

/// The places, each once and in ascending order.
pub fn settle(places: &mut Vec<usize>)
    ensures order { IsStrictlySortedBy nat_cmp places.new.items }
    ensures same { (j : ℕ) → has places.new.items j ≡ has places.old.items j }
{
    places.sort_unstable();
    places.dedup();
}

/// Puts a `deny` line behind the others for the pattern at each of these places.
pub fn push_denied(
    lines: &mut List<ListLine>,
    patterns: &[Pattern],
    places: &[usize],
) -> Result<(), AllocError>
    requires { AllByRecursion (λ j. j < length patterns.now) places.now }
    ensures { IfOk result (λ _. lines.new ≡ lines.old ++ map (line false) (at_places patterns.now places.now)) }
{
    for place in places {
        lines.push(ListLine {
            permit: false,
            pattern: patterns[*place],
        })?;
    }
    Ok(())
}
