//! Cases in which routers take what peers announce.
ghost use Rattle.std.specs.Prelude.{◌≡◌, ◌+◌, ◌<◌};
ghost use Rattle.own_space.specs.Open.{number_of as number_in};

/// A case whose origins are the peers, and in which the policy lets some router take a route from one.
#[derive(Clone, Copy)]
pub struct OpenCase {
    /// The number of the case, from 1.
    pub number: usize,
    /// The number of its statement, from 1.
    pub statement: u32,
}

// The number of the first of these cases that has the statement.
fn number_of(cases: &[OpenCase], statement: u32) -> Option<usize>
    ensures { result ≡ number_in cases.now statement }
{
    for case in cases {
        if case.statement == statement {
            return Some(case.number);
        }
    }
    None
}

/// The same for the statement at a place, from 0.
pub(crate) fn number_at(cases: &[OpenCase], place: usize) -> Option<usize>
    requires { place + 1 < 4294967296 }
    ensures { result ≡ number_in cases.now (place + 1) }
{
    number_of(cases, place as u32 + 1)
}
