//! Networks in motion whose ties go to the lowest identifier: they rest in the one outcome that is stable with ties broken by
//! whole length and identifier, whatever peers say; every world is one of some scenario and has such an outcome, and
//! schedules that forget nobody exist. There is no code.
//!
//! `motion_rest` says that routers which hear, choose and send when they like come to rest, however ties are broken. Which stable outcome is
//! left then depends on the schedule. Here ties go to the neighbour with the lowest identifier (`specs/Named`), and the full order is by
//! preference, by the number of AS numbers of the whole path, also where a peer says a long one, and by identifier. Under evidence that
//! passes there is one outcome in that order, and each network in motion ends in it.
//!
//! - `proofs/Lowest`: of those whose routes are first one has the lowest identifier.
//! - `proofs/Naming`: a router that has always taken the lowest never holds on to another route.
//! - `proofs/Held`: in a stable outcome each route may be held, and stands behind it what the peer at its end says. `proofs/One`: so a
//!   fully stable outcome is one of the graph of the prefix's case, in the sense of `steady_law`, and there is one.
//! - `proofs/Ending`: what a network rests in is fully stable.
//! - `proofs/Scenarios`: every world is one of some scenario, and from each there is a schedule that forgets nobody. `proofs/Reached`: so
//!   each scenario has an outcome, in which a network rests to which nothing has happened but what fails and what peers say.
//!
//! Ties by identifier are said of what a router takes, and not of what it names. In motion a router that has heard nothing
//! new keeps its route, even where a neighbour with a lower identifier gives one that ties. So to name the lowest isn't to
//! hold its route: a router may hold on to one that it took by another rule. `TakesLowest` speaks of the route after each
//! choice, from some time on, and asks nothing of what was before. That a router takes the lowest where it has named it from
//! the start on is a law (`named_choices_take_lowest`).
//!
//! Compiling doesn't need it.
//!
//! It knows nothing of the compiler or of texts.
#![tactic(auto)]

ghost use Rattle.named_rest.specs.Named.{FullyStableUnderAreOne, NamedChoicesTakeLowest, TiesByNameHaveOneEnd};
ghost use Rattle.named_rest.specs.Scenarios.{EveryWorldHasAScenario, EveryWorldHasAnOutcome, FairSchedulesExist};

/// Where the evidence passes, one outcome at most is stable with ties broken by whole length and identifier, whatever peers say.
pub fn fully_stable_outcomes_are_one()
    ensures { FullyStableUnderAreOne }
{}

/// A router that has chosen by identifier from the start on never holds on to another route.
pub fn named_choices_take_lowest()
    ensures { NamedChoicesTakeLowest }
{}

/// Where ties go to the lowest identifier from some time on, a network in motion comes to rest in that one outcome.
pub fn ties_by_name_have_one_end()
    ensures { TiesByNameHaveOneEnd }
{}

/// Every world that is reached is one of some scenario. From each some schedule goes on that forgets nobody and chooses by identifier, and where
/// the evidence passes each has its fully stable outcome.
pub fn worlds_have_scenarios()
    ensures scenarios { EveryWorldHasAScenario }
    ensures schedules { FairSchedulesExist }
    ensures outcomes { EveryWorldHasAnOutcome }
{}
