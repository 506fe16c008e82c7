//! What fails besides, and moves nothing: laws without code.
ghost use Rattle.drain_report.specs.Laws.{CutsOffRoutesMoveNothing, CutsOnARouteMoveIt, FreeIsUnused, DrainsAreOne};

/// Where the evidence passes, a cut moves no other router's settled route exactly where none goes over it: else each that goes over it moves.
pub fn cuts_move_what_goes_over_them()
    ensures off { CutsOffRoutesMoveNothing }
    ensures on { CutsOnARouteMoveIt }
{}

/// So a link or a router is free, that is its failure leaves other routers their routes and peers what they are offered, exactly where no
/// other router's route and nothing that a peer is offered goes over it. One settled outcome tells all of them.
pub fn free_is_unused()
    ensures { FreeIsUnused }
{}

/// An outcome has one drain.
pub fn drains_are_one()
    ensures { DrainsAreOne }
{}
