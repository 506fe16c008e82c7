//! Each event in one go: what changes at once, who chooses again, and who is then told. Laws without code.

ghost use Rattle.config_base.specs.declared.route.Route.{Route};
ghost use Rattle.event_base.specs.World.{Speakers};
ghost use Rattle.event_core.specs.AtOnce.{EventsSettleAtOnce};

/// In each event all routers that choose again may choose at once, and then all that is new is told at once.
pub fn events_settle_at_once()
    ensures { (net : Speakers Route) → EventsSettleAtOnce net }
{}
