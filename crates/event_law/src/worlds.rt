//! What holds of the events on a configured network: laws without code.
ghost use Rattle.event_law.specs.Laws.{QuietWorldsAreSettled, QuietWorldsOffer, WorldsHaveScenarios};
ghost use Rattle.event_law.specs.Moments.{EveryMomentIsRight};
ghost use Rattle.event_law.specs.Waiting.{HeldAndWaitingRoutesRun, OriginsAloneHoldRoutes};

/// After any events each route that a router holds, has queued or has heard has a run in the graph of its case, and what a peer has
/// heard is allowed with the peer in front.
pub fn held_and_waiting_routes_run()
    ensures cases { HeldAndWaitingRoutesRun }
    ensures bare { OriginsAloneHoldRoutes }
{}

/// So at every moment, also while messages wait: the path of what a claimed router holds is allowed, and so is, with the peer in front, that of
/// what a peer has heard or will hear; what every other router holds ends a permitted walk. Where no statement governs the prefix only
/// origins hold routes, and no router sends any.
pub fn every_moment_is_right()
    ensures { EveryMomentIsRight }
{}

/// Whenever no message waits, the routes are what settles, and peers have heard what they are offered.
pub fn quiet_worlds_are_settled()
    ensures routes { QuietWorldsAreSettled }
    ensures offers { QuietWorldsOffer }
{}

/// What is down, cut and silent in a world is a scenario.
pub fn worlds_have_scenarios()
    ensures { WorldsHaveScenarios }
{}
