//! The rules of tables.
ghost use Rattle.std.specs.Prelude.{◌≡◌, map};
ghost use Rattle.net_base.specs.Gives.{GivesUnless};
ghost use Rattle.net_base.specs.Steps.{each_from};
ghost use Rattle.location_names.specs.Names.{names_of, texts};
ghost use Rattle.table_reader.specs.Rules.{at_holders, begins_at as does_begin_at, held_by, judged, located};
ghost use Rattle.table_reader.specs.Shape.{each};
ghost use Rattle.table_reader.specs.Views.{raw_entry};

use crate::fault::TablesFault;
use crate::shape::RawRoute;
use config_base::Route;
use location_names::LocationNames;
use net_base::{List, Loc, Net};
use std::alloc::Global;

// The location of a name on the path of an entry.
#[tactic(auto, unfolding(crate::specs::Rules::located))]
fn locate(names: &LocationNames<'_>, place: u64, name: &str) -> Result<Loc, TablesFault>
    ensures { GivesUnless TablesFault.NoMemory (λ l. l) result (located names.now place name.now) }
{
    match names.location(name) {
        Some(at) => Ok(at),
        None => Err(TablesFault::Unknown(place)),
    }
}

// The locations of a path.
fn path(
    alloc: Global,
    names: &LocationNames<'_>,
    place: u64,
    raw: &[&str],
) -> Result<List<Loc>, TablesFault>
    ensures { GivesUnless TablesFault.NoMemory (λ v. v) result (each (located names.now place) (texts raw.now)) }
{
    let mut all = List::new(alloc);
    for name in raw {
        let at = locate(names, place, name)?;
        all.push(at)?;
    }
    Ok(all)
}

// What the router of an entry holds.
#[tactic(auto, unfolding(crate::specs::Rules::held_by))]
fn held(
    alloc: Global,
    names: &LocationNames<'_>,
    place: u64,
    raw: &Option<RawRoute<'_>>,
) -> Result<Option<Route>, TablesFault>
    ensures { GivesUnless TablesFault.NoMemory (λ o. o) result (held_by names.now place (raw_entry raw.now)) }
{
    match raw {
        None => Ok(None),
        Some(raw) => {
            let path = path(alloc, names, place, &raw.path)?;
            Ok(Some(Route {
                path,
                tag: raw.tag,
                pref: raw.pref,
            }))
        }
    }
}

// What the router of each entry holds.
fn each_held(
    alloc: Global,
    names: &LocationNames<'_>,
    raw: &[Option<RawRoute<'_>>],
) -> Result<List<Option<Route>>, TablesFault>
    ensures { GivesUnless TablesFault.NoMemory (λ v. v) result (each_from (held_by names.now) 1 (map raw_entry raw.now)) }
{
    let mut all = List::new(alloc);
    for i in 0..raw.len() {
        let held = held(alloc, names, i as u64 + 1, &raw[i])?;
        all.push(held)?;
    }
    Ok(all)
}

// What the routers of a network hold.
fn all_held(
    alloc: Global,
    net: &Net,
    raw: &[Option<RawRoute<'_>>],
) -> Result<List<Option<Route>>, TablesFault>
    ensures { GivesUnless TablesFault.NoMemory (λ v. v) result (each_from (held_by (names_of net.now)) 1 (map raw_entry raw.now)) }
{
    let names = LocationNames::of(alloc, net)?;
    each_held(alloc, &names, raw)
}

// Whether the path of a route begins with this location. Where there is no route it does.
fn begins_at(place: usize, held: &Option<Route>) -> bool
    ensures { result ≡ does_begin_at place held.now }
{
    match held {
        None => true,
        Some(route) => match route.path.as_slice() {
            [] => false,
            [first, ..] => first.number() as usize == place,
        },
    }
}

// Each route begins with its router.
fn begin_at_holders(routes: &[Option<Route>]) -> Result<(), TablesFault>
    ensures { GivesUnless TablesFault.NoMemory (λ u. u) result (at_holders 0 routes.now) }
{
    for i in 0..routes.len() {
        if !begins_at(i, &routes[i]) {
            return Err(TablesFault::Holder(i as u64 + 1));
        }
    }
    Ok(())
}

/// The routes of what is said, or the least rule that it breaks.
#[tactic(auto, unfolding(crate::specs::Rules::judged))]
pub fn judge(
    alloc: Global,
    net: &Net,
    raw: &[Option<RawRoute<'_>>],
) -> Result<List<Option<Route>>, TablesFault>
    ensures { GivesUnless TablesFault.NoMemory (λ v. v) result (judged net.now (map raw_entry raw.now)) }
{
    if raw.len() != net.routers().len() {
        return Err(TablesFault::Count(raw.len() as u64));
    }
    let routes = all_held(alloc, net, raw)?;
    begin_at_holders(routes.as_slice())?;
    Ok(routes)
}
