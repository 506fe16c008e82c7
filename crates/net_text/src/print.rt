//! How a network is written.
ghost use Rattle.std.specs.Prelude.{◌≡◌, ◌++◌, map, nat_lt, IfOk, IsTrue, OnOk, Ok};
ghost use Rattle.serde_json.specs.Data.{Data};
ghost use Rattle.serde_json.specs.Written.{comma_if, compact_text};
ghost use Rattle.json_values.specs.Json.{array_of};
ghost use Rattle.net_base.specs.NameRule.{is_name};
ghost use Rattle.net_base.specs.Network.{IsLink};
ghost use Rattle.net_text.specs.NetText.{HaveNames, link_data, net_text, site_data};
ghost use Rattle.text_parts.specs.Texts.{address_text};
ghost use Rattle.topology.specs.Topology.{spelled};

use input_output::NoMemory;
use net_base::{Loc, Name, Net, Site};
use std::alloc::Global;
use text_parts::{push_address, push_bytes, push_name, push_number};

// Adds a comma before every item but the first one.
fn push_comma(text: &mut Vec<u8>, place: usize) -> Result<(), NoMemory>
    ensures { OnOk result (text.new.items ≡ text.old.items ++ comma_if (nat_lt 0 place)) }
{
    if place > 0 {
        push_bytes(text, b",")
    } else {
        Ok(())
    }
}

// Adds a name between quotation marks.
fn push_name_text(text: &mut Vec<u8>, name: &Name) -> Result<(), NoMemory>
    ensures text { OnOk result (text.new.items ≡ text.old.items ++ compact_text (Data.string name.now)) }
    ensures rules { OnOk result (IsTrue (is_name name.now)) }
{
    push_bytes(text, b"\"")?;
    push_name(text, name)?;
    push_bytes(text, b"\"")
}

// Adds an identifier between quotation marks.
fn push_identifier(text: &mut Vec<u8>, bits: u32) -> Result<(), NoMemory>
    ensures { OnOk result (text.new.items ≡ text.old.items ++ compact_text (Data.string (address_text bits))) }
{
    push_bytes(text, b"\"")?;
    push_address(text, bits)?;
    push_bytes(text, b"\"")
}

// Adds a router or a peer, its keys in the order of their bytes.
fn push_site(text: &mut Vec<u8>, site: &Site) -> Result<(), NoMemory>
    ensures text { OnOk result (text.new.items ≡ text.old.items ++ compact_text (site_data site.now)) }
    ensures rules { OnOk result (IsTrue (is_name site.now.name)) }
{
    push_bytes(text, b"{\"asn\":")?;
    push_number(text, u64::from(site.asn))?;
    push_bytes(text, b",\"id\":")?;
    push_identifier(text, site.id)?;
    push_bytes(text, b",\"name\":")?;
    push_name_text(text, &site.name)?;
    push_bytes(text, b"}")
}

// Adds routers or peers.
fn push_sites(text: &mut Vec<u8>, sites: &[Site]) -> Result<(), NoMemory>
    ensures text { OnOk result (text.new.items ≡ text.old.items ++ compact_text (array_of (map site_data sites.now))) }
    ensures rules { OnOk result (HaveNames sites.now) }
{
    push_bytes(text, b"[")?;
    for i in 0..sites.len() {
        push_comma(text, i)?;
        push_site(text, &sites[i])?;
    }
    push_bytes(text, b"]")
}

// Adds a link: the names of its two ends.
fn push_link(text: &mut Vec<u8>, net: &Net, link: (Loc, Loc)) -> Result<(), NoMemory>
    requires { IsLink net.now link }
    ensures { OnOk result (text.new.items ≡ text.old.items ++ compact_text (link_data net.now link)) }
{
    push_bytes(text, b"[")?;
    push_name_text(text, &net.name_of(link.0))?;
    push_bytes(text, b",")?;
    push_name_text(text, &net.name_of(link.1))?;
    push_bytes(text, b"]")
}

// Adds the links.
fn push_links(text: &mut Vec<u8>, net: &Net) -> Result<(), NoMemory>
    ensures { OnOk result (text.new.items ≡ text.old.items ++ compact_text (array_of (map (link_data net.now) net.now.links))) }
{
    let links = net.links();
    push_bytes(text, b"[")?;
    for i in 0..links.len() {
        push_comma(text, i)?;
        push_link(text, net, links[i])?;
    }
    push_bytes(text, b"]")
}

/// The text of a network: one JSON object without spaces, its keys in the order of their bytes, and a line feed. Routers,
/// peers and links stand in their order. It spells this network.
pub fn print_net(alloc: Global, net: &Net) -> Result<Vec<u8>, NoMemory>
    ensures text { IfOk result (λ v. v.items ≡ net_text net.now) }
    ensures read { IfOk result (λ v. spelled v.items ≡ Ok net.now) }
{
    let mut text = Vec::new(alloc);
    push_bytes(&mut text, b"{\"links\":")?;
    push_links(&mut text, net)?;
    push_bytes(&mut text, b",\"peers\":")?;
    push_sites(&mut text, net.peers())?;
    push_bytes(&mut text, b",\"routers\":")?;
    push_sites(&mut text, net.routers())?;
    push_bytes(&mut text, b"}\n")?;
    Ok(text)
}
