//! What a policy promises for each of its cases while nothing has failed: laws without code.
ghost use Rattle.promises_report.specs.Apart.{ApartRanksAreApart};
ghost use Rattle.promises_report.specs.Groups.{GroupsTellOfCases};
ghost use Rattle.promises_report.specs.Laws.{ClaimedSourcesHaveRanks, PromisesAreKept, TopsTellPromises};
ghost use Rattle.promises_report.specs.Taken.{PartsAreWhatIsTaken};

/// Where the evidence passes, the node with the greatest number at a router tells what is promised for the router and for its
/// sessions, and permitted walks pass exactly the routers at which a node stands.
pub fn tops_tell_promises()
    ensures { TopsTellPromises }
{}

/// What is promised for a case is kept for every prefix of it: the sources that are claimed for the prefix are those with a rank, and
/// in the settled outcome without failures each of them has it. But for origins exactly the routers that permitted walks pass hold a
/// route there.
pub fn promises_are_kept()
    ensures { PromisesAreKept }
{}

/// While nothing has failed every claimed source has an allowed path: a shortest permitted walk may pass a location twice, but then
/// the rules of numbers give an allowed path of no worse a rank.
pub fn claimed_sources_have_ranks()
    ensures { ClaimedSourcesHaveRanks }
{}

/// Of a prefix inside an originated one that isn't originated itself some part that is told tells exactly where the policy lets some router
/// take it from a peer.
pub fn parts_are_what_is_taken()
    ensures { PartsAreWhatIsTaken }
{}

/// Of each case some group tells how every router, origin and session stands in it.
pub fn groups_tell_of_cases()
    ensures { GroupsTellOfCases }
{}

/// The ranks that are told apart are those of claimed sources that no claimed source has both of, in any case of their statement.
pub fn apart_ranks_are_apart()
    ensures { ApartRanksAreApart }
{}
