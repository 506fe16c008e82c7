//! Whether any message waits.
ghost use Rattle.std.specs.Prelude.{◌≡◌, ◌↔◌, ◌&&◌, IsTrue};
ghost use Rattle.event_base.specs.Steps.{IsQuiet};
ghost use Rattle.event_state.specs.Idle.{is_idle};
ghost use Rattle.event_state.specs.States.{state};

use crate::world::World;
use net_base::Loc;

impl<'a> World<'a> {
    // Whether nothing waits on a link, either way.
    fn is_idle_link(&self, link: (Loc, Loc)) -> bool
        ensures { result ≡ (is_idle ((state self.now).queue link.0 link.1) && is_idle ((state self.now).queue link.1 link.0)) }
    {
        self.is_idle(link.0, link.1) && self.is_idle(link.1, link.0)
    }

    /// Whether no message waits anywhere.
    pub fn is_quiet(&self) -> bool
        ensures { IsTrue result ↔ IsQuiet (state self.now) }
    {
        self.net.links().iter().all(|link| self.is_idle_link(*link))
    }
}
