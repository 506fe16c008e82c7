//! What waits in a world, told queue by queue.
ghost use Rattle.std.specs.Prelude.{◌≡◌, ◌≢◌, ◌++◌, [], IfOk, IsTrue, OnOk};
ghost use Rattle.std.specs.List.{flat_map};
ghost use Rattle.net_base.specs.Network.{linked};
ghost use Rattle.event_state.specs.Changes.{with_queue};
ghost use Rattle.event_state.specs.States.{setting, state};
ghost use Rattle.waiting_report.specs.Lines.{link_lines, waits_line, way_lines};
ghost use Rattle.waiting_report.specs.Waiting.{Tells};

use crate::lines::push_waits;
use event_state::{Queue, World};
use input_output::NoMemory;
use net_base::{Loc, Net};
use std::alloc::Global;
use trace_report::push_quiet;

// Adds the lines of the messages of a queue, the first one first.
#[tactic(auto, using(crate::proofs::Draining::first_told, crate::proofs::Draining::one_fewer))]
fn push_each(
    alloc: Global,
    text: &mut Vec<u8>,
    net: &Net,
    from: Loc,
    to: Loc,
    queue: &mut Queue,
) -> Result<(), NoMemory>
    ensures { OnOk result (text.new.items ≡ text.old.items ++ flat_map (waits_line net.now from to) queue.old) }
{
    for _ in 0..queue.len() {
        let message = queue.first(alloc)?;
        push_waits(text, net, from, to, message.as_ref())?;
        queue.pop();
    }
    Ok(())
}

// Adds what waits from one end of a link to the other, and takes it out of the world.
fn push_way(
    alloc: Global,
    text: &mut Vec<u8>,
    world: &mut World<'_>,
    from: Loc,
    to: Loc,
) -> Result<(), NoMemory>
    requires { IsTrue (linked world.old.net.now from to) }
    ensures text { OnOk result (text.new.items ≡ text.old.items ++ way_lines world.old.net.now (state world.old) from to) }
    ensures world { state world.new ≡ with_queue from to [] (state world.old) }
    ensures setting { setting world.new ≡ setting world.old }
{
    let mut queue = Queue::new(alloc);
    world.swap_queue(from, to, &mut queue);
    push_each(alloc, text, world.net(), from, to, &mut queue)
}

// Adds what waits on a link, first from its first end to its second and then back, and takes it out of the world.
fn push_link(
    alloc: Global,
    text: &mut Vec<u8>,
    world: &mut World<'_>,
    link: (Loc, Loc),
) -> Result<(), NoMemory>
    requires linked { IsTrue (linked world.old.net.now link.0 link.1) }
    requires apart { link.0 ≢ link.1 }
    ensures text { OnOk result (text.new.items ≡ text.old.items ++ link_lines world.old.net.now (state world.old) link) }
    ensures world { OnOk result (state world.new ≡ with_queue link.1 link.0 [] (with_queue link.0 link.1 [] (state world.old))) }
    ensures setting { setting world.new ≡ setting world.old }
{
    push_way(alloc, text, world, link.0, link.1)?;
    push_way(alloc, text, world, link.1, link.0)
}

// Adds what waits on each link in order, and takes it out of the world.
fn push_links(alloc: Global, text: &mut Vec<u8>, world: &mut World<'_>) -> Result<(), NoMemory>
    ensures { OnOk result (text.new.items ≡ text.old.items ++ flat_map (link_lines world.old.net.now (state world.old)) world.old.net.now.links) }
{
    let net = world.net();
    for link in net.links() {
        push_link(alloc, text, world, *link)?;
    }
    Ok(())
}

/// The text of what waits in a world: a line for each message, and then whether there is none.
pub(crate) fn told(alloc: Global, world: World<'_>) -> Result<Vec<u8>, NoMemory>
    ensures { IfOk result (λ text. Tells world.entry.net.now (state world.entry) text.items) }
{
    let mut world = world;
    let mut text = Vec::new(alloc);
    let quiet = world.is_quiet();
    push_links(alloc, &mut text, &mut world)?;
    push_quiet(&mut text, quiet)?;
    Ok(text)
}
