//! The laws of two policies over one network: what decides whether they say the same of a prefix, and what follows where they
//! do, or where one takes nothing away. There is no code.
//!
//! What a policy says of a prefix depends on the statement and the origins alone (`proofs/Cases`), and two policies say the same of it
//! exactly where the origins are the same and the rows of each place agree (`proofs/Rows`): each walk that either permits begins at a place.
//!
//! Policies that say the same of a prefix have the same stable outcomes there, and each outcome is right for the one exactly where it is
//! right for the other (`proofs/Origins`, `proofs/Alike`). Stability asks a policy for its origins alone. Being right asks for the walks
//! that it permits, and for the order of the ranks of one source's walks, which all begin in the same way: the path that a router uses
//! begins with it, and the one that its peer is offered with the peer and the router. So ranks needn't be the same numbers, and a prefix
//! that no statement governs says the same as one whose statement permits nothing. Policies that say the same of every prefix are
//! therefore served by the same configurations: one that runs may stay.
//!
//! Under failures less follows, and is all the more useful (`proofs/Failing`): a source that loses no walk has a good path in the new policy
//! wherever it has one in the old, whatever has failed, and where ranks only get less, its best one gets no greater. A path that is lost
//! shows failures under which its source has none (`proofs/Lost`).
//!
//! Compiling doesn't need it.
//!
//! It knows nothing of graphs, evidence, or how policies are compared.
#![tactic(auto)]

ghost use Rattle.compare_law.specs.Laws.{AlikePrefixesAreRightAlike, AlikePrefixesAreStableAlike, CasesDecide, FirstWalksAreOne, LostPathsShowFailures, NothingLostStaysInReach, NothingSaidIsAlike, PairsDecide, RanksGetNoGreater, RowsDecide, SamePoliciesAreServedAlike};

/// What a policy says of a prefix depends on the number of the statement that governs it and on its origins alone. Two policies say the
/// same of a prefix of which both say nothing.
pub fn cases_decide()
    ensures one { CasesDecide }
    ensures pairs { PairsDecide }
    ensures nothing { NothingSaidIsAlike }
{}

/// Two policies say the same of a prefix exactly where it has the same origins in both, and at each place each walk has a rank in both or
/// in neither and no two are ordered otherwise.
pub fn rows_decide()
    ensures { RowsDecide }
{}

/// There is one first walk of a row at most: the shortest ones come in an order of their own.
pub fn first_walks_are_one()
    ensures { FirstWalksAreOne }
{}

/// Where two policies say the same of a prefix, an outcome is stable for the one exactly where it is for the other, and is then right for
/// the one exactly where it is for the other.
pub fn alike_prefixes_have_the_same_outcomes()
    ensures stable { AlikePrefixesAreStableAlike }
    ensures right { AlikePrefixesAreRightAlike }
{}

/// Where two policies say the same of every prefix, a configuration is right for the one exactly where it is right for the other.
pub fn same_policies_are_served_alike()
    ensures { SamePoliciesAreServedAlike }
{}

/// A source that loses no walk has a good path in the new policy under all failures that leave it one in the old. Where each of its walks
/// keeps its rank or gets a lesser one, it has a good path of a rank that is no greater.
pub fn kept_walks_keep_paths_in_reach()
    ensures reach { NothingLostStaysInReach }
    ensures ranks { RanksGetNoGreater }
{}

/// A path that is lost, where the origins stay, shows failures under which its source has a good path in the old policy and none in the
/// new one: all fails but the places and the links of the path. Within these no other path leads from its first place to an origin.
pub fn lost_paths_show_failures()
    ensures { LostPathsShowFailures }
{}
