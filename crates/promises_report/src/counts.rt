//! How many there are of each kind.
ghost use Rattle.std.specs.Prelude.{◌≡◌, ◌+◌, ◌≤◌, ◌&&◌, false, length, slice_index_or, if◌then◌else◌};
ghost use Rattle.std.specs.List.{count_by};
ghost use Rattle.net_base.specs.Locations.{in_order};
ghost use Rattle.own_space.specs.Covers.{covered_in};
ghost use Rattle.policy_base.specs.Policies.{policy_of, statement_at as plain_statement_at};
ghost use Rattle.promises_report.specs.Standings.{is_wanted as is_wanted_in};
ghost use Rattle.promises_report.specs.Counting.{
  case_counts as counts_of,
  is_named_by,
  is_named_peer as is_named_in,
  mark_at,
  missed_sessions as missed_in,
  names as names_in,
  promised_counts as promised_in,
};
ghost use Rattle.promises_report.specs.Cases.{all_of, row_in};

use crate::group::Group;
use crate::standing::{Standing, Wanted, is_wanted};
use net_base::{Loc, Net, known_net};
use policy_base::{Case, FromSet, Policy, statement_at};

/// How many of each kind a case has, or several.
#[derive(Clone, Copy)]
pub struct Counts {
    /// Routers, sessions and peers that aren't claimed.
    pub unclaimed: u64,
    /// Routers that carry routes without a claim.
    pub transit: u64,
    /// External cases of which no prefix is left.
    pub covered: u64,
    /// Origins at which no path ends.
    pub unused: u64,
}

impl Counts {
    ghost use Rattle.std.specs.Prelude.{◌≡◌, ◌+◌, ◌<◌};
    ghost use Rattle.promises_report.specs.Counting.{no_counts, sum_of};
    ghost use Rattle.promises_report.specs.Cases.{all_of};

    /// None.
    pub(crate) fn none() -> Counts
        ensures { result ≡ no_counts }
    {
        Counts {
            unclaimed: 0,
            transit: 0,
            covered: 0,
            unused: 0,
        }
    }

    /// These and others.
    pub(crate) fn and(self, other: Counts) -> Counts
        requires { all_of self + all_of other < 18446744073709551616 }
        ensures { result ≡ sum_of self other }
    {
        Counts {
            unclaimed: self.unclaimed + other.unclaimed,
            transit: self.transit + other.transit,
            covered: self.covered + other.covered,
            unused: self.unused + other.unused,
        }
    }
}

// Whether a `from` names a location.
fn names(from: FromSet, at: Loc) -> bool
    ensures { result ≡ names_in from at }
{
    match from {
        FromSet::Any => false,
        FromSet::Named(set) => set.holds(at),
    }
}

// Whether the `from` of the statement with a number, if there is one, names a location.
fn is_named(policy: &Policy, number: u32, at: Loc) -> bool
    ensures { result ≡ is_named_by (plain_statement_at (policy_of policy.now) number) at }
{
    match statement_at(policy, number) {
        None => false,
        Some(statement) => names(statement.from, at),
    }
}

/// Whether a location is a peer that the `from` of the statement with a number names.
#[tactic(auto, unfolding(crate::specs::Counting::is_named_peer))]
pub fn is_named_peer(net: &Net, policy: &Policy, number: u32, at: Loc) -> bool
    ensures { result ≡ is_named_in net.now (policy_of policy.now) number at }
{
    net.is_peer(at) && is_named(policy, number, at)
}

// How many peers the `from` of the statement with a number names.
fn named_peers(net: &Net, policy: &Policy, number: u32) -> u64
    ensures count { result ≡ count_by (is_named_in net.now (policy_of policy.now) number) (in_order net.now) }
    ensures within { result ≤ length net.now.routers + length net.now.peers }
{
    let mut count = 0;
    for place in 0..net.routers().len() + net.peers().len() {
        if is_named_peer(net, policy, number, Loc::new(place as u16)) {
            count += 1;
        }
    }
    count
}

// How many of these are wanted.
fn counted(standings: &[Option<Standing>], wanted: Wanted) -> u64
    ensures count { result ≡ count_by (is_wanted_in wanted) standings.now }
    ensures within { result ≤ length standings.now }
{
    let mut count = 0;
    for standing in standings {
        if is_wanted(wanted, *standing) {
            count += 1;
        }
    }
    count
}

// How many sessions aren't claimed, in a case in which some peer could be: `from` names so many peers.
fn missed_sessions(named: u64, group: &Group) -> u64
    requires named { named ≤ 768 }
    requires sessions { length group.now.sessions ≤ 8192 }
    ensures count { result ≡ missed_in named (row_in group.now) }
    ensures within { result ≤ 8192 }
{
    let sessions = group.sessions.as_slice();
    if counted(sessions, Wanted::Claimed) + named == 0 {
        return 0;
    }
    counted(sessions, Wanted::Unclaimed)
}

// The mark at a place, from 0; none past the end.
fn marked(marks: &[bool], place: u32) -> bool
    ensures { result ≡ slice_index_or marks.now place false }
{
    match marks.get(place as usize) {
        None => false,
        Some(mark) => *mark,
    }
}

/// Whether the statement of an external case is marked as covered.
pub fn is_covered(external: bool, statement: u32, marks: &[bool]) -> bool
    ensures { result ≡ (external && mark_at marks.now statement) }
{
    external && statement > 0 && marked(marks, statement - 1)
}

// How many peers an external case names.
fn idle_peers(external: bool, named: u64) -> u64
    ensures count { result ≡ (if external then named else 0) }
    ensures within { result ≤ named }
{
    if external { named } else { 0 }
}

// How many of each kind a case has, whose group has no other, where `from` names so many peers.
fn promised_counts(named: u64, case: &Case, group: &Group) -> Counts
    requires named { named ≤ 768 }
    requires routers { length group.now.routers ≤ 512 }
    requires origins { length group.now.origins ≤ 512 }
    requires sessions { length group.now.sessions ≤ 8192 }
    ensures counts { result ≡ promised_in named case.now (row_in group.now) }
    ensures room { all_of result ≤ 65536 }
{
    let unclaimed = counted(group.routers.as_slice(), Wanted::Unclaimed);
    let missed = missed_sessions(named, group);
    Counts {
        unclaimed: unclaimed + missed + idle_peers(case.external, named),
        transit: counted(group.routers.as_slice(), Wanted::Transit),
        covered: 0,
        unused: counted(group.origins.as_slice(), Wanted::Unused),
    }
}

/// How many of each kind a case has, whose group has no other. The marks tell which statements are covered.
#[tactic(auto, unfolding(crate::specs::Counting::case_counts))]
pub fn case_counts(net: &Net, policy: &Policy, case: &Case, group: &Group, marks: &[bool]) -> Counts
    requires routers { length group.now.routers ≤ 512 }
    requires origins { length group.now.origins ≤ 512 }
    requires sessions { length group.now.sessions ≤ 8192 }
    requires marks { marks.now ≡ covered_in (policy_of policy.now) }
    ensures counts { result ≡ counts_of net.now (policy_of policy.now) case.now (row_in group.now) }
    ensures room { all_of result ≤ 65536 }
{
    known_net(net);
    if !is_covered(case.external, case.statement, marks) {
        return promised_counts(named_peers(net, policy, case.statement), case, group);
    }
    Counts {
        unclaimed: 0,
        transit: 0,
        covered: 1,
        unused: counted(group.origins.as_slice(), Wanted::Unused),
    }
}
