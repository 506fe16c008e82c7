//! Where packets go in a stable outcome if routers spread them over routes that tie with their own, and the laws of that: they arrive, by
//! right ways, also where more fails and where peers announce what they like. The value that lists multipath sets and idle links, and no
//! other code.
//!
//! A neighbour is in a router's multipath set where the route that it gives ties with the router's own in preference and in the number of
//! AS numbers (`specs/Multipath`). The laws say three things of packets that go to any neighbours of the sets:
//!
//! - They arrive, whatever the configuration is: the number of AS numbers on the route falls by one at each hop (`proofs/Lengths`, over
//!   `proofs/Ways`, which knows no network).
//! - They go right ways where the evidence passes. A way over routes that tie in preference has a run in the graph of the case, to a node
//!   with the number of the router's route (`proofs/Ranked`, `proofs/Right`): at least that number by the step rule, and at most, since the
//!   way survives.
//! - They go right ways while routers only leave out neighbours to which their link is down (`proofs/Repaired`).
//!
//! Lengths count for one thing alone: without them packets can go in a circle. Two routers and a peer that originates, each linked with the
//! others, are enough: with routes that tie in preference alone a packet may go from one router to the other and back.
//!
//! A tie is measured against the route that the router holds, and not against the fewest AS numbers that are given. So the laws hold of
//! every stable outcome, whichever of several routes a router has chosen, and none asks how ties are broken. A router may use any part of
//! its set, and another one for each packet. So a limit on the number of paths, weights and hashing need no law of their own, and routers
//! that spread can stand between routers that don't.
//!
//! Each router still holds and announces its one route with its one tag. Announcements that are made of all members, as with AS sets,
//! aren't modelled: a route could then have several tags. Where peers announce what they like, whole AS paths are compared
//! (`specs/Announced`). While messages wait nothing is said of packets.
//!
//! Compiling doesn't need it.
//!
//! It knows nothing of the compiler, of how multipath sets are found, and of events.
#![tactic(auto)]

mod multipath;

ghost use Rattle.multipath_law.specs.Laws.{
  IdleLinksCarryNothing,
  MembersCarry,
  OthersDont,
  PartsArrive,
  PassingEvidenceSpreadsRight,
  QuietFailuresTakeOff,
  RepairsAreRight,
  RepairsGoOn,
  SpreadPacketsArrive,
  SpreadPacketsArriveUnder,
  SpreadsAreRight,
  SpreadsAreRightUnder,
  TiedWaysAreRight,
  TiedWaysHaveNumbers,
};

pub use multipath::Multipath;

/// Whatever the configuration is, in every stable outcome packets that routers spread over their multipath sets, or over parts of them,
/// come to an origin that is up, over live links, after as many hops as the path of the route has, and come to no place twice.
pub fn spread_packets_arrive()
    ensures arrive { SpreadPacketsArrive }
    ensures parts { PartsArrive }
{}

/// So a link carries packets exactly where one end is in the other's multipath set.
pub fn members_carry_packets()
    ensures carry { MembersCarry }
    ensures others { OthersDont }
{}

/// Over a link that is listed as idle no packet goes, and over every other live link some packet does. A peer that is offered a path sends
/// packets over its link, too.
pub fn idle_links_carry_nothing()
    ensures { IdleLinksCarryNothing }
{}

/// Where the evidence passes, each way over routes that tie in preference runs to a node with the number of the router's route.
pub fn tied_ways_have_numbers()
    ensures { TiedWaysHaveNumbers }
{}

/// So where it comes to no place twice it is as right as the route's path: allowed, with the best rank, for claimed routers and for what
/// peers are offered, and elsewhere a suffix of a permitted walk.
pub fn tied_ways_are_right()
    ensures { TiedWaysAreRight }
{}

/// Ways over multipath sets come to no place twice.
pub fn spreads_are_right()
    ensures { SpreadsAreRight }
{}

/// Where more fails and routers leave out members to which their links are down, what is left is right for what has failed now, as long as
/// a member is left.
pub fn repairs_are_right()
    ensures right { RepairsAreRight }
    ensures onward { RepairsGoOn }
{}

/// Where what fails besides moves no route, sets lose those to which links are down, and nobody else.
pub fn quiet_failures_take_members_off()
    ensures { QuietFailuresTakeOff }
{}

/// All of that holds where peers announce what they like, if whole AS paths are compared.
pub fn spreads_are_right_under_announcements()
    ensures arrive { SpreadPacketsArriveUnder }
    ensures right { SpreadsAreRightUnder }
{}

/// So a configuration for which the evidence passes keeps its policy if routers spread packets: the laws above that say so, together.
pub fn passing_evidence_spreads_right()
    ensures { PassingEvidenceSpreadsRight }
{}
