//! An event, or why it is refused.
ghost use Rattle.std.specs.Prelude.{◌≡◌, OnOk, OnErr};
ghost use Rattle.event_base.specs.Steps.{fault_of, step};
ghost use Rattle.event_core.specs.Causes.{IsCause};
ghost use Rattle.event_state.specs.States.{setting, speakers, state};

use crate::changing::Changing;
use event_base::{Event, EventFault};
use event_state::World;
use std::alloc::Global;

/// What an event makes of a world: `specs/Steps` of `event_base` says what each event does. It costs what the routers that choose
/// again have for neighbours. After an error the world is as before.
///
/// # Errors
///
/// The fault that the event has, where it has one; and otherwise `NoMemory` where memory is refused.
pub fn apply(alloc: Global, world: &mut World<'_>, event: Event) -> Result<(), EventFault>
    ensures setting { setting world.new ≡ setting world.old }
    ensures cause { IsCause result (fault_of (speakers world.old) event (state world.old)) }
    ensures ok { OnOk result (state world.new ≡ step (speakers world.old) event (state world.old)) }
    ensures err { OnErr result (state world.new ≡ state world.old) }
{
    if let Some(fault) = world.fault(event) {
        return Err(fault);
    }
    let mut log = Vec::new(alloc);
    let mut changing = Changing {
        alloc,
        world,
        log: &mut log,
    };
    match changing.happen(&event) {
        Ok(()) => Ok(()),
        Err(error) => {
            changing.rewind();
            Err(error.into())
        }
    }
}
