//! Lines of maps texts are written.
ghost use Rattle.std.specs.Prelude.{◌≡◌, ◌+◌, ◌++◌, Some, OnOk, IfOk, codes, IsTrue};
ghost use Rattle.std.specs.Fmt.{decimal};
ghost use Rattle.config_lines.specs.declared.edition.Edition.TheVariants.{Second};
ghost use Rattle.config_lines.specs.declared.line.Line.TheVariants.{Router as RouterLine, Peer as PeerLine, Session as SessionLine, Import as ImportLine, PeerImport, Export as ExportLine};
ghost use Rattle.config_lines.specs.Editions.{tag_text};
ghost use Rattle.config_lines.specs.LineText.{set_text};
ghost use Rattle.config_text.specs.ConfigLines.{head_of, import_of};
ghost use Rattle.config_text.specs.Spelled.{HasPrefix, IsNamed};
ghost use Rattle.route_map_text.specs.declared.line.MapLine.TheVariants.{List as ListOf, Entry, Block};
ghost use Rattle.route_map_text.specs.MapLineText.{kind_text};
ghost use Rattle.route_map_text.specs.MapsLines.{fed, network_of};
ghost use Rattle.route_map_text.specs.MapsSpelled.{HasPattern};
ghost use Rattle.net_base.specs.NameRule.{is_name};

use config_base::{Export, Import, Origination, Session};
use input_output::NoMemory;
use net_base::{Name, Tag};
use route_maps::ListLine;
use text_parts::{push_address, push_bytes, push_name, push_number, push_pattern, push_prefix};

// Adds a tag as a large community is written (RFC 8092).
fn push_tag(text: &mut Vec<u8>, tag: Tag) -> Result<(), NoMemory>
    ensures { OnOk result (text.new.items ≡ text.old.items ++ tag_text Second tag) }
{
    push_number(text, u64::from(tag.asn))?;
    push_bytes(text, b":0:")?;
    push_number(text, u64::from(tag.value))
}

// Adds whether a line permits.
fn push_kind(text: &mut Vec<u8>, permit: bool) -> Result<(), NoMemory>
    ensures { OnOk result (text.new.items ≡ text.old.items ++ kind_text permit) }
{
    if permit {
        push_bytes(text, b" permit ")
    } else {
        push_bytes(text, b" deny ")
    }
}

/// Adds a line of the list with this number.
pub fn push_list_line(text: &mut Vec<u8>, number: u64, line: ListLine) -> Result<(), NoMemory>
    ensures text { OnOk result (text.new.items ≡ text.old.items ++ fed (ListOf (Some number) line)) }
    ensures rules { OnOk result (HasPattern line) }
{
    push_bytes(text, b"list ")?;
    push_number(text, number)?;
    push_kind(text, line.permit)?;
    push_pattern(text, line.pattern)?;
    push_bytes(text, b"\n")
}

/// Adds the head line of a router.
pub fn push_router_line(text: &mut Vec<u8>, name: &Name, asn: u32, id: u32) -> Result<(), NoMemory>
    ensures text { OnOk result (text.new.items ≡ text.old.items ++ fed (Block (RouterLine name.now asn id))) }
    ensures rules { OnOk result (IsTrue (is_name name.now)) }
{
    push_bytes(text, b"router ")?;
    push_name(text, name)?;
    push_bytes(text, b" asn ")?;
    push_number(text, u64::from(asn))?;
    push_bytes(text, b" id ")?;
    push_address(text, id)?;
    push_bytes(text, b"\n")
}

/// Adds a `network` line.
pub fn push_network_line(text: &mut Vec<u8>, own: &Origination) -> Result<(), NoMemory>
    ensures text { OnOk result (text.new.items ≡ text.old.items ++ fed (network_of own.now)) }
    ensures rules { OnOk result (HasPrefix own.now) }
{
    push_bytes(text, b"network ")?;
    push_prefix(text, own.prefix)?;
    push_bytes(text, b" list ")?;
    push_number(text, u64::from(own.class))?;
    push_bytes(text, b" set ")?;
    push_tag(text, own.tag)?;
    push_bytes(text, b"\n")
}

// Adds a neighbour's name and AS number, and a line feed.
fn push_neighbour(text: &mut Vec<u8>, name: &Name, asn: u32) -> Result<(), NoMemory>
    ensures text { OnOk result (text.new.items ≡ text.old.items ++ (name.now ++ codes " asn " ++ decimal asn ++ codes "\n")) }
    ensures rules { OnOk result (IsTrue (is_name name.now)) }
{
    push_name(text, name)?;
    push_bytes(text, b" asn ")?;
    push_number(text, u64::from(asn))?;
    push_bytes(text, b"\n")
}

// Adds the head line of a router's neighbour that is a peer.
fn push_peer_line(text: &mut Vec<u8>, name: &Name, asn: u32) -> Result<(), NoMemory>
    ensures text { OnOk result (text.new.items ≡ text.old.items ++ fed (Block (PeerLine name.now asn))) }
    ensures rules { OnOk result (IsTrue (is_name name.now)) }
{
    push_bytes(text, b"peer ")?;
    push_neighbour(text, name, asn)
}

// Adds the head line of a router's neighbour that is a router.
fn push_neighbor_line(text: &mut Vec<u8>, name: &Name, asn: u32) -> Result<(), NoMemory>
    ensures text { OnOk result (text.new.items ≡ text.old.items ++ fed (Block (SessionLine name.now asn))) }
    ensures rules { OnOk result (IsTrue (is_name name.now)) }
{
    push_bytes(text, b"neighbor ")?;
    push_neighbour(text, name, asn)
}

/// Adds the head line of a neighbour's block.
pub fn push_head(text: &mut Vec<u8>, session: &Session) -> Result<(), NoMemory>
    ensures text { OnOk result (text.new.items ≡ text.old.items ++ fed (Block (head_of session.now))) }
    ensures rules { OnOk result (IsNamed session.now) }
{
    if session.peer {
        push_peer_line(text, &session.name, session.asn)
    } else {
        push_neighbor_line(text, &session.name, session.asn)
    }
}

// Adds the number of an entry and its list.
fn push_list(text: &mut Vec<u8>, number: u64, list: u32) -> Result<(), NoMemory>
    ensures { OnOk result (text.new.items ≡ text.old.items ++ (decimal number ++ codes " list " ++ decimal list)) }
{
    push_number(text, number)?;
    push_bytes(text, b" list ")?;
    push_number(text, u64::from(list))
}

// Adds what an entry gives a route, and a line feed.
fn push_set(text: &mut Vec<u8>, rule: &Import) -> Result<(), NoMemory>
    ensures { OnOk result (text.new.items ≡ text.old.items ++ (set_text Second rule.now ++ codes "\n")) }
{
    push_bytes(text, b" set ")?;
    push_tag(text, rule.set)?;
    push_bytes(text, b" pref ")?;
    push_number(text, u64::from(rule.pref))?;
    push_bytes(text, b"\n")
}

// Adds an `in` line in the block of a router.
fn push_matched(text: &mut Vec<u8>, number: u64, rule: &Import) -> Result<(), NoMemory>
    ensures { OnOk result (text.new.items ≡ text.old.items ++ fed (Entry (Some number) (ImportLine rule.now))) }
{
    push_bytes(text, b"in ")?;
    push_list(text, number, rule.class)?;
    push_bytes(text, b" match ")?;
    push_tag(text, rule.tag)?;
    push_set(text, rule)
}

// Adds an `in` line in the block of a peer.
fn push_unmatched(text: &mut Vec<u8>, number: u64, rule: &Import) -> Result<(), NoMemory>
    ensures { OnOk result (text.new.items ≡ text.old.items ++ fed (Entry (Some number) (PeerImport rule.now))) }
{
    push_bytes(text, b"in ")?;
    push_list(text, number, rule.class)?;
    push_set(text, rule)
}

/// Adds an `in` line, in the block of a peer or of a router.
pub fn push_in(text: &mut Vec<u8>, peer: bool, number: u64, rule: &Import) -> Result<(), NoMemory>
    ensures { OnOk result (text.new.items ≡ text.old.items ++ fed (Entry (Some number) (import_of peer rule.now))) }
{
    if peer {
        push_unmatched(text, number, rule)
    } else {
        push_matched(text, number, rule)
    }
}

/// Adds an `out` line.
pub fn push_out(text: &mut Vec<u8>, number: u64, export: &Export) -> Result<(), NoMemory>
    ensures { OnOk result (text.new.items ≡ text.old.items ++ fed (Entry (Some number) (ExportLine export.now))) }
{
    push_bytes(text, b"out ")?;
    push_list(text, number, export.class)?;
    push_bytes(text, b" match ")?;
    push_tag(text, export.tag)?;
    push_bytes(text, b"\n")
}

/// The number of the next entry. One past all numbers of 64 bits wants more memory than there is.
pub fn next_number(number: u64) -> Result<u64, NoMemory>
    ensures { IfOk result (λ n. n ≡ number + 10) }
{
    match number.checked_add(10) {
        Some(next) => Ok(next),
        None => Err(NoMemory),
    }
}
