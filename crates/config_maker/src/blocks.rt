//! The blocks of routers.
ghost use Rattle.std.specs.Prelude.{◌≡◌, ◌<◌, ◌+◌, ℕ, IsTrue, IfOk, length, map, filter};
ghost use Rattle.std.specs.List.Sorted.{IsStrictlySortedBy};
ghost use Rattle.net_base.specs.Network.{IsNet, is_location, linked};
ghost use Rattle.net_base.specs.Sets.{holds};
ghost use Rattle.net_base.specs.Locations.{neighbours};
ghost use Rattle.config_maker.specs.Hops.{stands, hop_order, announced_order, AreReached};
ghost use Rattle.config_maker.specs.Writing.{
  import_line,
  export_line,
  own_line,
  session_with as plain_session_with,
  session_of as plain_session_of,
  router_of as plain_router_of,
  routers_of as plain_routers_of,
};

use crate::find::{announced_at, first_from, first_places, next_hops};
use crate::hop::{Announced, Hop};
use config_base::{Export, Import, Origination, RouterConfig, Session};
use location_names::neighbour_sets;
use net_base::{List, Loc, LocSet, Net};
use std::alloc::{AllocError, Global};

// The lines by which routes are taken over a link.
fn imports(alloc: Global, taken: &[Hop]) -> Result<List<Import>, AllocError>
    ensures { IfOk result (λ lines. lines ≡ map import_line taken.now) }
{
    let mut lines = Vec::with_capacity(alloc, taken.len())?;
    for hop in taken {
        lines.push(Import {
            class: hop.class,
            tag: hop.tag,
            set: hop.set,
            pref: hop.pref,
        })?;
    }
    Ok(List::from_vec(lines))
}

// The lines by which routes are sent over a link.
fn exports(alloc: Global, sent: &[Hop]) -> Result<List<Export>, AllocError>
    ensures { IfOk result (λ lines. lines ≡ map export_line sent.now) }
{
    let mut lines = Vec::with_capacity(alloc, sent.len())?;
    for hop in sent {
        lines.push(Export {
            class: hop.class,
            tag: hop.tag,
        })?;
    }
    Ok(List::from_vec(lines))
}

// The lines by which a router announces its own routes.
fn own(alloc: Global, announced: &[Announced], at: Loc) -> Result<List<Origination>, AllocError>
    requires { IsStrictlySortedBy announced_order announced.now }
    ensures { IfOk result (λ lines. lines ≡ map own_line (filter (stands at) announced.now)) }
{
    let mut lines = List::new(alloc);
    for own in announced_at(announced, at) {
        lines.push(Origination {
            class: own.class,
            prefix: own.prefix,
            tag: own.tag,
        })?;
    }
    Ok(lines)
}

// The block of a neighbour, by the hops that come from there and those that go there.
fn session_of(
    alloc: Global,
    net: &Net,
    taken: &[Hop],
    sent: &[Hop],
    neighbour: Loc,
) -> Result<Session, AllocError>
    requires { IsTrue (is_location net.now neighbour) }
    ensures { IfOk result (λ session. session ≡ plain_session_with net.now taken.now sent.now neighbour) }
{
    let site = net.site(neighbour);
    Ok(Session {
        name: site.name,
        asn: site.asn,
        peer: net.is_peer(neighbour),
        imports: imports(alloc, taken)?,
        exports: exports(alloc, sent)?,
    })
}

// The blocks of a router's neighbours, in order of location. The hops that come from a neighbour are looked for from the place
// on that stands for it.
fn sessions_of(
    alloc: Global,
    net: &Net,
    hops: &[Hop],
    near: &LocSet,
    places: &mut [usize],
    at: Loc,
) -> Result<List<Session>, AllocError>
    requires order { IsStrictlySortedBy hop_order hops.now }
    requires near { (l : ℕ) → holds near.now l ≡ linked net.now at l }
    requires places { length places.old ≡ length net.now.routers + length net.now.peers }
    requires reached { AreReached hops.now places.old at }
    ensures sessions { IfOk result (λ sessions. sessions ≡ map (plain_session_of net.now hops.now at) (neighbours net.now at)) }
    ensures places { length places.new ≡ length places.old }
    ensures reached { AreReached hops.now places.new at }
{
    let mut departure = first_from(hops, at);
    let mut sessions = List::new(alloc);
    for number in 0..net.routers().len() + net.peers().len() {
        let neighbour = Loc::new(number as u16);
        if near.holds(neighbour) {
            let taken = next_hops(hops, &mut places[number], neighbour, at);
            let sent = next_hops(hops, &mut departure, at, neighbour);
            sessions.push(session_of(alloc, net, taken, sent, neighbour)?)?;
        }
    }
    Ok(sessions)
}

// The block of a router.
fn router_of(
    alloc: Global,
    net: &Net,
    hops: &[Hop],
    announced: &[Announced],
    near: &LocSet,
    places: &mut [usize],
    at: Loc,
) -> Result<RouterConfig, AllocError>
    requires hops { IsStrictlySortedBy hop_order hops.now }
    requires announced { IsStrictlySortedBy announced_order announced.now }
    requires known { IsTrue (is_location net.now at) }
    requires near { (l : ℕ) → holds near.now l ≡ linked net.now at l }
    requires places { length places.old ≡ length net.now.routers + length net.now.peers }
    requires reached { AreReached hops.now places.old at }
    ensures router { IfOk result (λ router. router ≡ plain_router_of net.now hops.now announced.now at) }
    ensures places { length places.new ≡ length places.old }
    ensures reached { AreReached hops.now places.new at }
{
    let site = net.site(at);
    Ok(RouterConfig {
        name: site.name,
        asn: site.asn,
        id: site.id,
        own: own(alloc, announced, at)?,
        sessions: sessions_of(alloc, net, hops, near, places, at)?,
    })
}

/// The blocks of the routers, in order of location.
pub fn routers_of(
    alloc: Global,
    net: &Net,
    hops: &[Hop],
    announced: &[Announced],
) -> Result<List<RouterConfig>, AllocError>
    requires hops { IsStrictlySortedBy hop_order hops.now }
    requires announced { IsStrictlySortedBy announced_order announced.now }
    ensures routers { IfOk result (λ routers. routers ≡ plain_routers_of net.now hops.now announced.now) }
    ensures net { IsNet net.now }
{
    let count = net.routers().len();
    let neighbours = neighbour_sets(alloc, net)?;
    let mut places = first_places(alloc, hops, neighbours.len())?;
    let mut routers = List::new(alloc);
    for number in 0..count {
        let at = Loc::new(number as u16);
        let near = &neighbours[number];
        routers.push(router_of(alloc, net, hops, announced, near, &mut places, at)?)?;
    }
    Ok(routers)
}
