//! What is told of messages that wait: a law without code.
ghost use Rattle.std.specs.Prelude.{◌≡◌, ℕ, List};
ghost use Rattle.net_base.specs.Network.{PlainNet};
ghost use Rattle.config_base.specs.declared.route.Route.{Route};
ghost use Rattle.event_base.specs.World.{World};
ghost use Rattle.waiting_report.specs.Waiting.{IsWaiting};

/// One text tells what waits in a world.
pub fn waiting_texts_are_one()
    ensures { (net : PlainNet) (w : World Route) (one other : List ℕ) → IsWaiting net w one → IsWaiting net w other → one ≡ other }
{}
