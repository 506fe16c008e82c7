//! Lines of routers. Each `push_` function adds a text to the end of another.
ghost use Rattle.std.specs.Prelude.{◌≡◌, ◌++◌, ◌+◌, ◌<◌, OnOk};
ghost use Rattle.std.specs.List.{flat_map};
ghost use Rattle.net_base.specs.Locations.{numbers_below};
ghost use Rattle.promises_text.specs.Texts.{
  line_of,
  router_source,
  transit_line,
  unclaimed_routers,
  unused_line,
  wanted_router,
  wanted_routers,
};

use crate::line::{push_line, tail_of};
use input_output::NoMemory;
use net_base::{Loc, Net};
use outcome_report::push_next;
use promises_report::{Group, Standing, Wanted, entry, is_wanted};
use std::alloc::Global;

// Adds a router, where a line tells of it.
#[tactic(auto, unfolding(crate::specs::Texts::wanted_router))]
fn push_router(
    text: &mut Vec<u8>,
    net: &Net,
    standings: &[Option<Standing>],
    wanted: Wanted,
    router: Loc,
) -> Result<(), NoMemory>
    ensures { OnOk result (text.new.items ≡ text.old.items ++ wanted_router net.now standings.now wanted router) }
{
    if !is_wanted(wanted, entry(standings, router.number() as usize)) {
        return Ok(());
    }
    push_next(text, net, router)
}

// Adds the routers of which a line tells.
fn push_routers(
    text: &mut Vec<u8>,
    net: &Net,
    standings: &[Option<Standing>],
    wanted: Wanted,
) -> Result<(), NoMemory>
    ensures { OnOk result (text.new.items ≡ text.old.items ++ wanted_routers net.now standings.now wanted) }
{
    for place in 0..net.routers().len() {
        push_router(text, net, standings, wanted, Loc::new(place as u16))?;
    }
    Ok(())
}

// Adds a line of routers.
fn push_router_line(
    alloc: Global,
    text: &mut Vec<u8>,
    net: &Net,
    head: &[u8],
    standings: &[Option<Standing>],
    wanted: Wanted,
    tail: &[u8],
) -> Result<(), NoMemory>
    ensures { OnOk result (text.new.items ≡ text.old.items ++ line_of head.now (wanted_routers net.now standings.now wanted) tail.now) }
{
    let mut names = Vec::new(alloc);
    push_routers(&mut names, net, standings, wanted)?;
    push_line(text, head, &names, tail)
}

// Adds the line of the routers whose best rank is 1 more than `place`.
#[tactic(auto, unfolding(crate::specs::Texts::router_source))]
fn push_router_source(
    alloc: Global,
    text: &mut Vec<u8>,
    net: &Net,
    group: &Group,
    place: u64,
) -> Result<(), NoMemory>
    requires { place < 18446744073709551615 }
    ensures { OnOk result (text.new.items ≡ text.old.items ++ router_source net.now group.now place) }
{
    let tail = tail_of(alloc, place + 1)?;
    push_router_line(
        alloc,
        text,
        net,
        b"source router",
        group.routers.as_slice(),
        Wanted::Source(place + 1),
        &tail,
    )
}

/// Adds the lines of the routers that are claimed, by rank, of so many.
pub fn push_router_sources(
    alloc: Global,
    text: &mut Vec<u8>,
    net: &Net,
    group: &Group,
    ranks: u64,
) -> Result<(), NoMemory>
    ensures { OnOk result (text.new.items ≡ text.old.items ++ flat_map (router_source net.now group.now) (numbers_below ranks)) }
{
    for place in 0..ranks {
        push_router_source(alloc, text, net, group, place)?;
    }
    Ok(())
}

/// Adds the line of the routers that aren't claimed.
#[tactic(auto, unfolding(crate::specs::Texts::unclaimed_routers))]
pub fn push_unclaimed_routers(
    alloc: Global,
    text: &mut Vec<u8>,
    net: &Net,
    group: &Group,
) -> Result<(), NoMemory>
    ensures { OnOk result (text.new.items ≡ text.old.items ++ unclaimed_routers net.now group.now) }
{
    let routers = group.routers.as_slice();
    push_router_line(
        alloc,
        text,
        net,
        b"unclaimed router",
        routers,
        Wanted::Unclaimed,
        b"\n",
    )
}

/// Adds the line of the routers that carry routes without a claim.
#[tactic(auto, unfolding(crate::specs::Texts::transit_line))]
pub fn push_transit(
    alloc: Global,
    text: &mut Vec<u8>,
    net: &Net,
    group: &Group,
) -> Result<(), NoMemory>
    ensures { OnOk result (text.new.items ≡ text.old.items ++ transit_line net.now group.now) }
{
    let routers = group.routers.as_slice();
    push_router_line(
        alloc,
        text,
        net,
        b"transit router",
        routers,
        Wanted::Transit,
        b"\n",
    )
}

/// Adds the line of the origins at which no path ends.
#[tactic(auto, unfolding(crate::specs::Texts::unused_line))]
pub fn push_unused(
    alloc: Global,
    text: &mut Vec<u8>,
    net: &Net,
    group: &Group,
) -> Result<(), NoMemory>
    ensures { OnOk result (text.new.items ≡ text.old.items ++ unused_line net.now group.now) }
{
    let origins = group.origins.as_slice();
    push_router_line(
        alloc,
        text,
        net,
        b"unused origin",
        origins,
        Wanted::Unused,
        b"\n",
    )
}
