//! A round of deliveries.
ghost use Rattle.std.specs.Prelude.{◌≡◌, ◌++◌, IfOk, OnOk, length, replicate};
ghost use Rattle.event_base.specs.Steps.{happens, run};
ghost use Rattle.event_base.specs.declared.event.Event.TheVariants.{Deliver};
ghost use Rattle.event_rounds.specs.Resting.{round_in};
ghost use Rattle.event_state.specs.States.{setting, speakers, state};
ghost use Rattle.rest_law.specs.Rounds.{deliveries};

use event_base::{Event, EventFault};
use event_core::apply;
use event_state::World;
use input_output::NoMemory;
use net_base::Loc;
use std::alloc::{AllocError, Global};

// Adds a direction as often as messages wait in it.
fn push_waiting(
    round: &mut Vec<(Loc, Loc)>,
    world: &World<'_>,
    from: Loc,
    to: Loc,
) -> Result<(), AllocError>
    ensures { OnOk result (round.new.items ≡ round.old.items ++ replicate (length ((state world.now).queue from to)) (from, to)) }
{
    for _ in 0..world.waiting(from, to) {
        round.push((from, to))?;
    }
    Ok(())
}

// The deliveries of a round: each direction of each link, first from the first end and then back, as often as messages wait in it.
fn round(alloc: Global, world: &World<'_>) -> Result<Vec<(Loc, Loc)>, AllocError>
    ensures { IfOk result (λ ways. ways.items ≡ round_in world.now.net.now.links (state world.now)) }
{
    let mut ways = Vec::new(alloc);
    for link in world.net().links() {
        push_waiting(&mut ways, world, link.0, link.1)?;
        push_waiting(&mut ways, world, link.1, link.0)?;
    }
    Ok(ways)
}

// The first message from one location to another is delivered, if one waits.
fn deliver(alloc: Global, world: &mut World<'_>, way: (Loc, Loc)) -> Result<(), NoMemory>
    ensures setting { setting world.new ≡ setting world.old }
    ensures world { OnOk result (state world.new ≡ happens (speakers world.old) (Deliver way.0 way.1) (state world.old)) }
{
    match apply(alloc, world, Event::Deliver(way.0, way.1)) {
        Err(EventFault::NoMemory) => Err(NoMemory),
        _ => Ok(()),
    }
}

// Deliveries, one after another.
fn deliver_each(alloc: Global, world: &mut World<'_>, ways: &[(Loc, Loc)]) -> Result<(), NoMemory>
    ensures setting { setting world.new ≡ setting world.old }
    ensures world { OnOk result (state world.new ≡ run (speakers world.old) (deliveries ways.now) (state world.old)) }
{
    for way in ways {
        deliver(alloc, world, *way)?;
    }
    Ok(())
}

/// What a round makes of a world, and how many messages it delivers.
pub(crate) fn play_round(alloc: Global, world: &mut World<'_>) -> Result<usize, NoMemory>
    ensures setting { setting world.new ≡ setting world.old }
    ensures count { IfOk result (λ count. count ≡ length (round_in world.old.net.now.links (state world.old))) }
    ensures world { OnOk result (state world.new ≡ run (speakers world.old) (deliveries (round_in world.old.net.now.links (state world.old))) (state world.old)) }
{
    let ways = round(alloc, world)?;
    deliver_each(alloc, world, &ways)?;
    Ok(ways.len())
}
