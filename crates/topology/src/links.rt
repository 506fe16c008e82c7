//! The rules of links.
ghost use Rattle.std.specs.Prelude.{◌≡◌, ◌≢◌, ◌≤◌, ◌==◌, Ok, Err, OnOk, IfOk, IfErr, IsTrue, length, map, position, not, nat_le};
ghost use Rattle.std.specs.List.{list_any};
ghost use Rattle.std.specs.Str.{bytes_eq};
ghost use Rattle.indexmap.specs.IndexSet.{index_set_len};
ghost use Rattle.net_base.specs.Gives.{GivesUnless};
ghost use Rattle.net_base.specs.Network.{ordered, same_ends};
ghost use Rattle.net_base.specs.Steps.{each_from};
ghost use Rattle.net_base.specs.declared.limits.TheConstants.{LINKS, LOCATIONS};
ghost use Rattle.topology.specs.Rules.{joined, put as put_link, ascending, links_differ, ends_differ as ends_are_different, routers_linked as routers_are_linked, links_of};
ghost use Rattle.topology.specs.Views.{raw_ends, texts};

use crate::fault::TopoFault;
use crate::shape::RawEnds;
use indexmap::IndexSet;
use net_base::Loc;
use std::alloc::Global;
use std::collections::BTreeSet;

// The location of a name: the place of the name.
fn location(names: &IndexSet<&[u8]>, name: &str) -> Option<u16>
    requires { index_set_len names.now ≤ LOCATIONS }
    ensures { result ≡ position (bytes_eq name.now) (texts names.now.keys) }
{
    match names.get_index_of(&name.as_bytes()) {
        Some(i) => Some(i as u16),
        None => None,
    }
}

// The lesser of two locations first.
fn link(a: u16, b: u16) -> (Loc, Loc)
    ensures { result ≡ ordered a b }
{
    if a < b {
        (Loc::new(a), Loc::new(b))
    } else {
        (Loc::new(b), Loc::new(a))
    }
}

// The link of the entry at this place.
#[tactic(auto, unfolding(crate::specs::Rules::joined))]
fn join(names: &IndexSet<&[u8]>, place: u32, raw: &RawEnds<'_>) -> Result<(Loc, Loc), TopoFault>
    requires { index_set_len names.now ≤ LOCATIONS }
    ensures { GivesUnless TopoFault.NoMemory (λ l. l) result (joined (texts names.now.keys) place (raw_ends raw.now)) }
{
    let Some(a) = location(names, raw.from) else {
        return Err(TopoFault::UnknownEnd(place));
    };
    let Some(b) = location(names, raw.to) else {
        return Err(TopoFault::UnknownEnd(place));
    };
    Ok(link(a, b))
}

// The links of the entries, in their order.
fn join_all(
    alloc: Global,
    names: &IndexSet<&[u8]>,
    raw: &[RawEnds<'_>],
) -> Result<Vec<(Loc, Loc)>, TopoFault>
    requires names { index_set_len names.now ≤ LOCATIONS }
    requires few { length raw.now ≤ LINKS }
    ensures links { GivesUnless TopoFault.NoMemory (λ v. v.items) result (each_from (joined (texts names.now.keys)) 1 (map raw_ends raw.now)) }
    ensures count { IfOk result (λ v. length v.items ≡ length raw.now) }
{
    let mut all = Vec::new(alloc);
    let mut place = 1;
    for entry in raw {
        let read = join(names, place, entry)?;
        all.push(read)?;
        place += 1;
    }
    Ok(all)
}

// Puts a link into its place, unless it is there; says whether it is new.
fn put(links: &mut BTreeSet<(Loc, Loc)>, link: (Loc, Loc)) -> Result<bool, TopoFault>
    ensures fresh { IfOk result (λ new. new ≡ not (list_any (same_ends link) links.old.keys)) }
    ensures added { IfOk result (λ new. IsTrue new → links.new.keys ≡ put_link links.old.keys link) }
    ensures err { IfErr result (λ e. e ≡ TopoFault.NoMemory) }
{
    Ok(links.insert(link)?)
}

// The links in ascending order, none of which stands twice.
#[tactic(auto, unfolding(crate::specs::Rules::links_differ))]
fn distinct(alloc: Global, links: &[(Loc, Loc)]) -> Result<BTreeSet<(Loc, Loc)>, TopoFault>
    requires few { length links.now ≤ LINKS }
    ensures ok { OnOk result (links_differ links.now ≡ Ok tt) }
    ensures order { IfOk result (λ set. set.keys ≡ ascending links.now) }
    ensures err { IfErr result (λ e. e ≢ TopoFault.NoMemory → links_differ links.now ≡ Err e) }
{
    let mut all = BTreeSet::new(alloc);
    let mut place = 1;
    for link in links {
        if !put(&mut all, *link)? {
            return Err(TopoFault::LinkTwice(place));
        }
        place += 1;
    }
    Ok(all)
}

// The links of a set in order.
fn in_order(alloc: Global, links: &BTreeSet<(Loc, Loc)>) -> Result<Vec<(Loc, Loc)>, TopoFault>
    ensures items { IfOk result (λ v. v.items ≡ links.now.keys) }
    ensures err { IfErr result (λ e. e ≡ TopoFault.NoMemory) }
{
    let mut all = Vec::new(alloc);
    for link in links {
        all.push(*link)?;
    }
    Ok(all)
}

// The place of the first link that joins a location to itself, from 0.
fn self_link(links: &[(Loc, Loc)]) -> Option<usize>
    ensures { result ≡ position (λ l. l.0 == l.1) links.now }
{
    links.iter().position(|link| link.0 == link.1)
}

// The place of the first link of two peers, from 0. The lesser end of each stands first.
fn peer_link(routers: u16, links: &[(Loc, Loc)]) -> Option<usize>
    ensures { result ≡ position (λ l. nat_le routers l.0) links.now }
{
    links.iter().position(|link| routers <= link.0.number())
}

// The ends of each link differ.
#[tactic(auto, unfolding(crate::specs::Rules::ends_differ))]
fn ends_differ(links: &[(Loc, Loc)]) -> Result<(), TopoFault>
    requires { length links.now ≤ LINKS }
    ensures { GivesUnless TopoFault.NoMemory (λ u. u) result (ends_are_different links.now) }
{
    match self_link(links) {
        Some(i) => Err(TopoFault::SelfLink(i as u32 + 1)),
        None => Ok(()),
    }
}

// An end of each link is a router.
#[tactic(auto, unfolding(crate::specs::Rules::routers_linked))]
fn routers_linked(routers: u16, links: &[(Loc, Loc)]) -> Result<(), TopoFault>
    requires { length links.now ≤ LINKS }
    ensures { GivesUnless TopoFault.NoMemory (λ u. u) result (routers_are_linked routers links.now) }
{
    match peer_link(routers, links) {
        Some(i) => Err(TopoFault::PeerLink(i as u32 + 1)),
        None => Ok(()),
    }
}

/// The links in ascending order, or the least rule that one breaks. The first names are those of the routers.
#[tactic(auto, unfolding(crate::specs::Rules::links_of))]
pub fn links(
    alloc: Global,
    names: &IndexSet<&[u8]>,
    routers: u16,
    raw: &[RawEnds<'_>],
) -> Result<Vec<(Loc, Loc)>, TopoFault>
    requires names { index_set_len names.now ≤ LOCATIONS }
    requires few { length raw.now ≤ LINKS }
    ensures { GivesUnless TopoFault.NoMemory (λ v. v.items) result (links_of (texts names.now.keys) routers (map raw_ends raw.now)) }
{
    let links = join_all(alloc, names, raw)?;
    let ordered = distinct(alloc, &links)?;
    ends_differ(&links)?;
    routers_linked(routers, &links)?;
    in_order(alloc, &ordered)
}
