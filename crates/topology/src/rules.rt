//! The rules of a topology.
ghost use Rattle.std.specs.Prelude.{◌≡◌, ◌≢◌, ◌≤◌, ◌++◌, List, Ok, Err, IfOk, IfErr, OnOk, length, map, nat_le};
ghost use Rattle.std.specs.List.{AllByRecursion};
ghost use Rattle.net_base.specs.Gives.{GivesUnless};
ghost use Rattle.net_base.specs.Steps.{unless};
ghost use Rattle.net_base.specs.declared.limits.TheConstants.{ROUTERS, PEERS, LINKS};
ghost use Rattle.topology.specs.Rules.{counted, judged, names_differ, network_of};
ghost use Rattle.topology.specs.Shape.{Ends, IsIdentifier};
ghost use Rattle.topology.specs.Views.{named_entry, net_parts, raw_ends, raw_topology, AreLawful};

use crate::fault::TopoFault;
use crate::links::links;
use crate::parts::Kind;
use crate::shape::{RawEnds, RawTopology};
use crate::sites::{Named, Number, names, sites, unshared, with_names};
use net_base::{List, Loc, Net, Site, limits};
use std::alloc::Global;

// There are at most so many of them.
fn at_most(kind: Kind, most: u64, number: usize) -> Result<(), TopoFault>
    ensures rule { GivesUnless TopoFault.NoMemory (λ u. u) result (unless (TopoFault.TooMany kind number) (nat_le number most)) }
    ensures few { OnOk result (number ≤ most) }
{
    let number = number as u64;
    if number > most {
        return Err(TopoFault::TooMany(kind, number));
    }
    Ok(())
}

// There are not too many routers, peers and links.
#[tactic(auto, unfolding(crate::specs::Rules::counted))]
fn count(raw: &RawTopology<'_>) -> Result<(), TopoFault>
    ensures rule { GivesUnless TopoFault.NoMemory (λ u. u) result (counted (raw_topology raw.now)) }
    ensures routers { OnOk result (length raw.now.routers.items ≤ ROUTERS) }
    ensures peers { OnOk result (length raw.now.peers.items ≤ PEERS) }
    ensures links { OnOk result (length raw.now.links.items ≤ LINKS) }
{
    at_most(Kind::Routers, limits::ROUTERS, raw.routers.len())?;
    at_most(Kind::Peers, limits::PEERS, raw.peers.len())?;
    at_most(Kind::Links, limits::LINKS, raw.links.len())
}

// The entries of the routers, and then those of the peers.
fn both(alloc: Global, routers: &[Named], peers: &[Named]) -> Result<Vec<Named>, TopoFault>
    ensures entries { IfOk result (λ v. map named_entry v.items ≡ map named_entry routers.now ++ map named_entry peers.now) }
    ensures err { IfErr result (λ e. e ≡ TopoFault.NoMemory) }
{
    let mut entries = Vec::from_slice(alloc, routers)?;
    entries.extend_from_slice(peers)?;
    Ok(entries)
}

// What a network is made of.
#[derive(Drop)]
struct NetParts {
    routers: List<Site>,
    peers: List<Site>,
    links: List<(Loc, Loc)>,
}

// The routers and peers of a network.
#[derive(Drop)]
struct Sites {
    routers: Vec<Site>,
    peers: Vec<Site>,
}

// The routers and peers, whose AS numbers are in their ranges, and none of whose numbers two of them share.
#[tactic(auto, unfolding(crate::specs::Rules::network_of))]
fn lawful(
    alloc: Global,
    entries: &[Named],
    routers: &[Named],
    peers: &[Named],
) -> Result<Sites, TopoFault>
    requires { map named_entry entries.now ≡ map named_entry routers.now ++ map named_entry peers.now }
    ensures sites { IfOk result (λ s. AreLawful (map named_entry routers.now) (map named_entry peers.now) s) }
    ensures fault { IfErr result (λ e. e ≢ TopoFault.NoMemory → (ends : List Ends) → names_differ (map named_entry routers.now ++ map named_entry peers.now) ≡ Ok tt
        → network_of (map named_entry routers.now) (map named_entry peers.now) ends ≡ Err e) }
{
    let router_sites = sites(alloc, Kind::Routers, routers)?;
    let peer_sites = sites(alloc, Kind::Peers, peers)?;
    unshared(alloc, Number::As, entries)?;
    unshared(alloc, Number::Id, entries)?;
    Ok(Sites {
        routers: router_sites,
        peers: peer_sites,
    })
}

// The network of entries, which are those of the routers and then those of the peers.
#[tactic(auto, unfolding(crate::specs::Rules::network_of))]
fn network_among(
    alloc: Global,
    entries: &[Named],
    routers: &[Named],
    peers: &[Named],
    ends: &[RawEnds<'_>],
) -> Result<NetParts, TopoFault>
    requires entries { map named_entry entries.now ≡ map named_entry routers.now ++ map named_entry peers.now }
    requires routers { length routers.now ≤ ROUTERS }
    requires peers { length peers.now ≤ PEERS }
    requires links { length ends.now ≤ LINKS }
    ensures { GivesUnless TopoFault.NoMemory net_parts result (network_of (map named_entry routers.now) (map named_entry peers.now) (map raw_ends ends.now)) }
{
    let names = names(alloc, entries)?;
    let sites = lawful(alloc, entries, routers, peers)?;
    let links = links(alloc, &names, routers.len() as u16, ends)?;
    Ok(NetParts {
        routers: List::from_vec(sites.routers),
        peers: List::from_vec(sites.peers),
        links: List::from_vec(links),
    })
}

// The network of routers and peers with names, and of links between them, or the least rule that they break.
fn network(
    alloc: Global,
    routers: &[Named],
    peers: &[Named],
    ends: &[RawEnds<'_>],
) -> Result<NetParts, TopoFault>
    requires routers { length routers.now ≤ ROUTERS }
    requires peers { length peers.now ≤ PEERS }
    requires links { length ends.now ≤ LINKS }
    ensures { GivesUnless TopoFault.NoMemory net_parts result (network_of (map named_entry routers.now) (map named_entry peers.now) (map raw_ends ends.now)) }
{
    let entries = both(alloc, routers, peers)?;
    network_among(alloc, &entries, routers, peers, ends)
}

/// The network of a topology, or the least rule that it breaks.
#[tactic(auto, unfolding(crate::specs::Rules::judged))]
pub fn judge(alloc: Global, raw: &RawTopology<'_>) -> Result<Net, TopoFault>
    requires routers { AllByRecursion (λ e. IsIdentifier e.id) (raw_topology raw.now).routers }
    requires peers { AllByRecursion (λ e. IsIdentifier e.id) (raw_topology raw.now).peers }
    ensures { GivesUnless TopoFault.NoMemory (λ net. net) result (judged (raw_topology raw.now)) }
{
    count(raw)?;
    let routers = with_names(alloc, Kind::Routers, &raw.routers)?;
    let peers = with_names(alloc, Kind::Peers, &raw.peers)?;
    let net = network(alloc, &routers, &peers, &raw.links)?;
    Ok(Net::new(net.routers, net.peers, net.links))
}
