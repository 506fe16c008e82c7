//! How a router or a session stands in a case.
ghost use Rattle.std.specs.Prelude.{◌≡◌};
ghost use Rattle.promises_report.specs.Standings.{is_wanted as is_wanted_in};

/// How a router or a session stands in a case.
#[derive(Clone, Copy)]
pub enum Standing {
    /// Claimed, with its best rank.
    Source(u32),
    /// A router that isn't claimed, and that permitted walks pass.
    Transit,
    /// Not claimed; if it's a router no permitted walk passes it.
    Unclaimed,
    /// An origin at which a permitted walk ends.
    Used,
    /// An origin at which none ends.
    Unused,
}

/// Which routers or sessions a line names.
#[derive(Clone, Copy)]
pub enum Wanted {
    /// Those whose best rank is this one.
    Source(u64),
    /// Those with some rank.
    Claimed,
    /// Those that aren't claimed, whether they carry routes or not.
    Unclaimed,
    /// Those that carry routes without a claim.
    Transit,
    /// Origins at which no permitted walk ends.
    Unused,
}

impl Standing {
    ghost use Rattle.std.specs.Prelude.{◌≡◌};
    ghost use Rattle.promises_report.specs.Groups.{same_standing};
    ghost use Rattle.promises_report.specs.Standings.{
      end_of as end_in,
      is_claimed as is_claimed_in,
      is_left as is_left_in,
      is_meant as is_meant_in,
      is_source_of as is_source_in,
      is_transit as is_transit_in,
      is_unclaimed as is_unclaimed_in,
      is_unused as is_unused_in,
      is_used as is_used_in,
      standing_of as standing_in,
    };

    /// How one with this best rank stands, or without one, where permitted walks pass it or not.
    pub fn new(rank: Option<u32>, passes: bool) -> Standing
        ensures { result ≡ standing_in rank passes }
    {
        match rank {
            Some(rank) => Standing::Source(rank),
            None => {
                if passes {
                    Standing::Transit
                } else {
                    Standing::Unclaimed
                }
            }
        }
    }

    /// How an origin stands that permitted walks pass or not.
    pub fn of_origin(passes: bool) -> Standing
        ensures { result ≡ end_in passes }
    {
        if passes {
            Standing::Used
        } else {
            Standing::Unused
        }
    }

    /// Whether the two are one.
    pub fn is_same(self, other: Standing) -> bool
        ensures { result ≡ same_standing self other }
    {
        match self {
            Standing::Source(rank) => other.is_source(u64::from(rank)),
            Standing::Transit => other.is_transit(),
            Standing::Unclaimed => other.is_left(),
            Standing::Used => other.is_used(),
            Standing::Unused => other.is_unused(),
        }
    }

    // Whether it's claimed with this best rank.
    fn is_source(self, rank: u64) -> bool
        ensures { result ≡ is_source_in rank self }
    {
        match self {
            Standing::Source(mine) => u64::from(mine) == rank,
            Standing::Transit => false,
            Standing::Unclaimed => false,
            Standing::Used => false,
            Standing::Unused => false,
        }
    }

    // Whether it's claimed, with any best rank.
    fn is_claimed(self) -> bool
        ensures { result ≡ is_claimed_in self }
    {
        matches!(self, Standing::Source(_))
    }

    // Whether it's a place that isn't claimed, whether it carries or not.
    fn is_unclaimed(self) -> bool
        ensures { result ≡ is_unclaimed_in self }
    {
        matches!(self, Standing::Transit) || matches!(self, Standing::Unclaimed)
    }

    // Whether it isn't claimed, and carries.
    fn is_transit(self) -> bool
        ensures { result ≡ is_transit_in self }
    {
        matches!(self, Standing::Transit)
    }

    // Whether it isn't claimed, and doesn't carry.
    fn is_left(self) -> bool
        ensures { result ≡ is_left_in self }
    {
        matches!(self, Standing::Unclaimed)
    }

    // Whether it's an origin at which paths end.
    fn is_used(self) -> bool
        ensures { result ≡ is_used_in self }
    {
        matches!(self, Standing::Used)
    }

    // Whether it's an origin at which no path ends.
    fn is_unused(self) -> bool
        ensures { result ≡ is_unused_in self }
    {
        matches!(self, Standing::Unused)
    }

    // Whether a line names it.
    fn is_meant(self, wanted: Wanted) -> bool
        ensures { result ≡ is_meant_in wanted self }
    {
        match wanted {
            Wanted::Source(rank) => self.is_source(rank),
            Wanted::Claimed => self.is_claimed(),
            Wanted::Unclaimed => self.is_unclaimed(),
            Wanted::Transit => self.is_transit(),
            Wanted::Unused => self.is_unused(),
        }
    }
}

/// Whether a line names it, if it stands in some way at all.
pub fn is_wanted(wanted: Wanted, standing: Option<Standing>) -> bool
    ensures { result ≡ is_wanted_in wanted standing }
{
    match standing {
        None => false,
        Some(standing) => standing.is_meant(wanted),
    }
}
