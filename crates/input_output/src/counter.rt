//! Counters that stay at their last value.
ghost use Rattle.std.specs.Prelude.{◌≡◌, ◌≤◌};
ghost use Rattle.input_output.specs.Outside.{next};

/// The count, raised by one, which stays at the last value once it is there.
pub(crate) fn raised(count: u64) -> u64
    ensures next { result ≡ next count }
    ensures no_less { count ≤ result }
{
    count.saturating_add(1)
}
