//! A world that is changed, with notes of how the changes are undone.
ghost use Rattle.std.specs.Prelude.{◌≡◌, ◌++◌, ◌∷◌, [], IsTrue};
ghost use Rattle.net_base.specs.Network.{linked};
ghost use Rattle.event_core.specs.Changes.{IsSwap, is_on, undone, with_change};
ghost use Rattle.event_core.specs.Followed.{Makes};
ghost use Rattle.event_state.specs.Changes.{with_queue};
ghost use Rattle.event_state.specs.States.{setting, state};

use crate::change::{Change, put, undo};
use config_base::Route;
use event_state::World;
use net_base::Loc;
use std::alloc::{AllocError, Global};

/// A world that is changed, and what undoes the changes, in their order.
#[derive(Drop)]
pub(crate) struct Changing<'c, 'l, 'w> {
    pub(crate) alloc: Global,
    pub(crate) world: &'c mut World<'w>,
    pub(crate) log: &'l mut Vec<Change>,
}

impl<'c, 'l, 'w> Changing<'c, 'l, 'w> {
    /// Makes a change, and notes how it is undone.
    pub(crate) fn make(&mut self, change: Change) -> Result<(), AllocError>
        requires on { IsTrue (is_on self.old.world.now.net.now change) }
        requires swap { IsSwap change }
        ensures { Makes (λ net. with_change change) self.old self.new result }
    {
        self.log.reserve(1)?;
        let back = put(self.world, change);
        self.log.push_reserved(back);
        Ok(())
    }

    /// Queues a message, and notes that it is to be taken back.
    pub(crate) fn post(
        &mut self,
        from: Loc,
        to: Loc,
        message: Option<Route>,
    ) -> Result<(), AllocError>
        requires { IsTrue (linked self.old.world.now.net.now from to) }
        ensures { Makes (λ net w. with_queue from to (w.queue from to ++ message ∷ []) w) self.old self.new result }
    {
        self.log.reserve(1)?;
        self.world.post(from, to, message)?;
        self.log.push_reserved(Change::TakenBack(from, to));
        Ok(())
    }

    /// Undoes all changes, the latest one first.
    pub(crate) fn rewind(&mut self)
        ensures world { state self.new.world.now ≡ undone self.old.world.now.net.now self.old.log.now.items (state self.old.world.now) }
        ensures setting { setting self.new.world.now ≡ setting self.old.world.now }
        ensures same { self.new.world.ghost_name ≡ self.old.world.ghost_name }
    {
        while let Some(change) = self.log.pop() {
            undo(self.world, change);
        }
    }
}
