//! Scenarios and outcomes from tables.
use config_base::Route;
use input_output::NoMemory;
use net_base::{List, Loc, LocSet, Prefix};
use scenarios::{Outcome, Scenario};
use std::alloc::Global;
use test_networks::{path, tag};

/// What a router holds: none, or a path, the value of its tag, and a preference.
pub(crate) type Held = Option<(&'static [u16], u32, u32)>;

/// The locations from the first number on, below the second.
pub(crate) type Range = (u16, u16);

fn pairs(alloc: Global, numbers: &[(u16, u16)]) -> Result<List<(Loc, Loc)>, NoMemory> {
    let mut pairs = Vec::new(alloc);
    for pair in numbers {
        pairs.push((Loc::new(pair.0), Loc::new(pair.1)))?;
    }
    Ok(List::from_vec(pairs))
}

/// The scenario of a prefix in which these locations and these links are dead, and these sessions silent.
pub(crate) fn scenario(
    alloc: Global,
    prefix: Prefix,
    dead: Range,
    dead_links: &[(u16, u16)],
    silent: &[(u16, u16)],
) -> Result<Scenario, NoMemory> {
    let dead_links = pairs(alloc, dead_links)?;
    let silent = pairs(alloc, silent)?;
    Ok(Scenario {
        prefix,
        dead: LocSet::of_range(dead.0, dead.1),
        dead_links,
        silent,
    })
}

/// The route that a router holds.
pub(crate) fn route(alloc: Global, router: u16, held: Held) -> Result<Option<Route>, NoMemory> {
    match held {
        None => Ok(None),
        Some((numbers, value, pref)) => Ok(Some(Route {
            path: List::from_vec(path(alloc, numbers)?),
            tag: tag(router, value),
            pref,
        })),
    }
}

// What a router holds, where one of them may hold something else.
fn held_at(router: u16, held: Held, other: Option<(u16, Held)>) -> Held {
    match other {
        Some((at, instead)) if at == router => instead,
        _ => held,
    }
}

// What the routers hold, onto what others hold.
fn push_routes(
    alloc: Global,
    routes: &mut Vec<Option<Route>>,
    all: &[Held],
    other: Option<(u16, Held)>,
) -> Result<(), NoMemory> {
    let mut at = 0u16;
    for held in all {
        routes.push(route(alloc, at, held_at(at, *held, other))?)?;
        at = at.wrapping_add(1);
    }
    Ok(())
}

/// What the routers hold, where one of them may hold something else.
pub(crate) fn outcome(
    alloc: Global,
    all: &[Held],
    other: Option<(u16, Held)>,
) -> Result<Outcome, NoMemory> {
    let mut routes = Vec::new(alloc);
    push_routes(alloc, &mut routes, all, other)?;
    Ok(Outcome {
        routes: List::from_vec(routes),
    })
}
