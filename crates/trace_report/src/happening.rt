//! Events one after another.
ghost use Rattle.std.specs.Prelude.{◌≡◌, IfOk, OnOk};
ghost use Rattle.event_base.specs.Steps.{fault_of, happens, run};
ghost use Rattle.event_state.specs.States.{setting, speakers, state};
ghost use Rattle.trace_report.specs.Refusals.{refused_from};

use crate::refused::Refused;
use event_base::{Event, EventFault};
use event_core::apply;
use event_state::World;
use input_output::NoMemory;
use std::alloc::Global;

// What an event does to a world, and why it is refused, if it is: then the world stays.
fn happen_next(
    alloc: Global,
    world: &mut World<'_>,
    event: Event,
) -> Result<Option<EventFault>, NoMemory>
    ensures setting { setting world.new ≡ setting world.old }
    ensures refused { IfOk result (λ why. why ≡ fault_of (speakers world.old) event (state world.old)) }
    ensures world { OnOk result (state world.new ≡ happens (speakers world.old) event (state world.old)) }
{
    match apply(alloc, world, event) {
        Ok(()) => Ok(None),
        Err(EventFault::NoMemory) => Err(NoMemory),
        Err(why) => Ok(Some(why)),
    }
}

/// What events do to a world, one after another. Those that are refused are passed over, and given with their numbers, from 1.
pub fn happen(
    alloc: Global,
    world: &mut World<'_>,
    events: &[Event],
) -> Result<Vec<Refused>, NoMemory>
    ensures setting { setting world.new ≡ setting world.old }
    ensures refused { IfOk result (λ all. all.items ≡ refused_from (speakers world.old) 1 events.now (state world.old)) }
    ensures world { OnOk result (state world.new ≡ run (speakers world.old) events.now (state world.old)) }
{
    let mut refused = Vec::new(alloc);
    let mut number = 0;
    for event in events {
        number += 1;
        if let Some(why) = happen_next(alloc, world, *event)? {
            refused.push(Refused { number, why })?;
        }
    }
    Ok(refused)
}
