//! The network of the sample.
ghost use Rattle.std.specs.Prelude.{◌≡◌, ◌≤◌, ◌+◌, ◌++◌, ◌∷◌, [], codes, IfOk, OnOk, map, IsTrue};
ghost use Rattle.std.specs.Fmt.{decimal};
ghost use Rattle.std.specs.List.{flat_map};
ghost use Rattle.net_base.specs.Locations.{numbers_below};
ghost use Rattle.net_base.specs.NameRule.{is_name};
ghost use Rattle.sample_network.specs.Network.{IsSampleNumber, dotted, leaf as leaf_site, leaf_links, peer as peer_site, peer_links, sample_net, spine as spine_site};

use input_output::NoMemory;
use net_base::{List, Loc, Name, Net, Site};
use std::alloc::Global;
use text_parts::{push_bytes, push_number};

/// How many spines a sample has.
pub const SPINES: u16 = 4;

/// The address of four bytes.
pub fn address(a: u8, b: u8, c: u8, d: u8) -> u32
    ensures { result ≡ dotted a b c d }
{
    u32::from(a) * 16_777_216 + u32::from(b) * 65_536 + u32::from(c) * 256 + u32::from(d)
}

// The name of these bytes.
fn name_of(text: &[u8]) -> Name
    requires { IsTrue (is_name text.now) }
    ensures { result ≡ text.now }
{
    Name::of(text).unwrap()
}

// The name of a letter and a number.
fn numbered(alloc: Global, letter: &[u8], number: u16) -> Result<Name, NoMemory>
    requires { IsTrue (is_name (letter.now ++ decimal number)) }
    ensures { IfOk result (λ name. name ≡ letter.now ++ decimal number) }
{
    let mut text = Vec::new(alloc);
    push_bytes(&mut text, letter)?;
    push_number(&mut text, u64::from(number))?;
    Ok(name_of(&text))
}

// The leaf at a place, from 0: `L1` with AS number 64512 and identifier 10.255.0.1, and so on.
fn leaf(alloc: Global, place: u16) -> Result<Site, NoMemory>
    requires { place ≤ 95 }
    ensures { IfOk result (λ site. site ≡ leaf_site place) }
{
    Ok(Site {
        name: numbered(alloc, b"L", place + 1)?,
        asn: 64_512 + u32::from(place),
        id: address(10, 255, 0, place as u8 + 1),
    })
}

// The spine at a place, from 0: `S1` with the AS number behind those of the leaves, and so on.
fn spine(alloc: Global, leaves: u16, place: u16) -> Result<Site, NoMemory>
    requires leaves { leaves ≤ 96 }
    requires place { place ≤ 3 }
    ensures { IfOk result (λ site. site ≡ spine_site leaves place) }
{
    Ok(Site {
        name: numbered(alloc, b"S", place + 1)?,
        asn: 64_512 + u32::from(leaves) + u32::from(place),
        id: address(10, 255, 1, place as u8 + 1),
    })
}

// The peer at a place, from 0: `W1` with AS number 1001, and so on.
fn peer(alloc: Global, place: u16) -> Result<Site, NoMemory>
    requires { place ≤ 1 }
    ensures { IfOk result (λ site. site ≡ peer_site place) }
{
    Ok(Site {
        name: numbered(alloc, b"W", place + 1)?,
        asn: 1001 + u32::from(place),
        id: address(10, 255, 2, place as u8 + 1),
    })
}

// Adds the leaves.
fn add_leaves(alloc: Global, sites: &mut Vec<Site>, leaves: u16) -> Result<(), NoMemory>
    requires { leaves ≤ 96 }
    ensures { OnOk result (sites.new.items ≡ sites.old.items ++ map leaf_site (numbers_below leaves)) }
{
    for place in 0..leaves {
        sites.push(leaf(alloc, place)?)?;
    }
    Ok(())
}

// Adds the spines.
fn add_spines(alloc: Global, sites: &mut Vec<Site>, leaves: u16) -> Result<(), NoMemory>
    requires { leaves ≤ 96 }
    ensures { OnOk result (sites.new.items ≡ sites.old.items ++ map (spine_site leaves) (numbers_below 4)) }
{
    for place in 0..SPINES {
        sites.push(spine(alloc, leaves, place)?)?;
    }
    Ok(())
}

// The leaves, and then the spines.
fn routers(alloc: Global, leaves: u16) -> Result<Vec<Site>, NoMemory>
    requires { leaves ≤ 96 }
    ensures { IfOk result (λ v. v.items ≡ (sample_net leaves).routers) }
{
    let mut sites = Vec::new(alloc);
    add_leaves(alloc, &mut sites, leaves)?;
    add_spines(alloc, &mut sites, leaves)?;
    Ok(sites)
}

// The two peers.
fn peers(alloc: Global) -> Result<Vec<Site>, NoMemory>
    ensures { IfOk result (λ v. v.items ≡ map peer_site (numbers_below 2)) }
{
    let mut sites = Vec::new(alloc);
    for place in 0..2 {
        sites.push(peer(alloc, place)?)?;
    }
    Ok(sites)
}

// Adds the links of a leaf, one to each spine.
fn add_leaf_links(links: &mut Vec<(Loc, Loc)>, leaves: u16, place: u16) -> Result<(), NoMemory>
    requires { leaves ≤ 96 }
    ensures { OnOk result (links.new.items ≡ links.old.items ++ leaf_links leaves place) }
{
    for spine in 0..SPINES {
        links.push((Loc::new(place), Loc::new(leaves + spine)))?;
    }
    Ok(())
}

// Adds the links of all leaves.
fn add_links(links: &mut Vec<(Loc, Loc)>, leaves: u16) -> Result<(), NoMemory>
    requires { leaves ≤ 96 }
    ensures { OnOk result (links.new.items ≡ links.old.items ++ flat_map (leaf_links leaves) (numbers_below leaves)) }
{
    for place in 0..leaves {
        add_leaf_links(links, leaves, place)?;
    }
    Ok(())
}

// Adds the links of the peers, each to a spine of its own.
fn add_peer_links(links: &mut Vec<(Loc, Loc)>, leaves: u16) -> Result<(), NoMemory>
    requires { leaves ≤ 96 }
    ensures { OnOk result (links.new.items ≡ links.old.items ++ peer_links leaves) }
{
    for place in 0..2 {
        links.push((Loc::new(leaves + place), Loc::new(leaves + SPINES + place)))?;
    }
    Ok(())
}

// The links of leaves and spines, and then those of the peers.
fn links(alloc: Global, leaves: u16) -> Result<Vec<(Loc, Loc)>, NoMemory>
    requires { leaves ≤ 96 }
    ensures { IfOk result (λ v. v.items ≡ (sample_net leaves).links) }
{
    let mut links = Vec::new(alloc);
    add_links(&mut links, leaves)?;
    add_peer_links(&mut links, leaves)?;
    Ok(links)
}

/// The network of so many leaves.
pub fn network(alloc: Global, leaves: u16) -> Result<Net, NoMemory>
    requires { IsSampleNumber leaves }
    ensures { IfOk result (λ net. net ≡ sample_net leaves) }
{
    let routers = routers(alloc, leaves)?;
    let peers = peers(alloc)?;
    let links = links(alloc, leaves)?;
    Ok(Net::new(
        List::from_vec(routers),
        List::from_vec(peers),
        List::from_vec(links),
    ))
}
