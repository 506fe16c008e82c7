//! Partial settlements: as long as settled routers give a route to one that isn't settled, some router that isn't can settle for
//! good. Laws without code.
//!
//! A settlement gives routes to some locations: origins have their own, and a settled router's route is given by a settled
//! neighbour. The other routers are open. `CanHold` of `specs/Partial` says which paths an open router can come to hold: those that
//! lead through open routers, one by one over what survives, to a settled location and on along its route, and that step through
//! the graph. An open router is secure with a route that a settled neighbour gives it where that is the first of those that settled
//! neighbours give it, by the full order, and comes before all that its open neighbours can come to give it, by its number or, at
//! the same number, by its length: of all that can come to it then, it chooses that route.
//!
//! | Law | It says | It needs |
//! |---|---|---|
//! | `some_router_is_secure` | where an open router is given a route by a settled neighbour, some open router is secure | `WellFormed`, `MeetsRules` |
//! | `secure_routers_settle` | a settlement whose routes are all firm stays so when a secure router joins it, from the origins on, and open routers can then come to hold no more than before; where none is given a route it is an outcome | |
//! | `firm_routes_are_chosen` | among what neighbours can give to a router its firm route comes first, alone | `WellFormed`, `NamesDiffer` |
//! | `settled_routes_are_the_outcome` | what is settled so is the outcome's, and all of the outcome settles, in some order, in at most as many steps as there are locations | and `MeetsRules` |
ghost use Rattle.rest_law.specs.SecureLaws.{
  CanHoldNoMore,
  FirmAtFirst,
  FirmAtLast,
  FirmComesFirst,
  FirmIsOutcome,
  FirmOn,
  GivenAreCandidates,
  NextSettles,
  NothingIsLeft,
  OpenWaysAreHeld,
  RoutersSettleInOrder,
  SomeoneIsSecure,
};

/// Where settled routers give a route to one that isn't, some router that isn't settled is given a route that comes before all that
/// it can come to be given by others that aren't.
pub fn some_router_is_secure()
    ensures { SomeoneIsSecure }
{}

/// Secure routers settle one after the other, from the origins to the outcome, and what others can come to hold gets less.
pub fn secure_routers_settle()
    ensures begin { FirmAtFirst }
    ensures on { FirmOn }
    ensures less { CanHoldNoMore }
    ensures end { FirmAtLast }
{}

/// Among all that settled neighbours give a router and open ones can come to give it its firm route comes first, alone. What can be held
/// leaves no path through open routers out, and where no settled router gives a route to an open one nothing can be held.
pub fn firm_routes_are_chosen()
    ensures first { FirmComesFirst }
    ensures ways { OpenWaysAreHeld }
    ensures given { GivenAreCandidates }
    ensures last { NothingIsLeft }
{}

/// What is settled so is the outcome's, and until all of the outcome is, a further router is secure.
pub fn settled_routes_are_the_outcome()
    ensures same { FirmIsOutcome }
    ensures next { NextSettles }
    ensures order { RoutersSettleInOrder }
{}
