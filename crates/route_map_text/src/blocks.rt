//! The lists, and the blocks of routers and of their neighbours.
ghost use Rattle.std.specs.Prelude.{◌≡◌, ◌++◌, Some, map, OnOk};
ghost use Rattle.std.specs.List.{flat_map, AllByRecursion};
ghost use Rattle.config_lines.specs.declared.line.Line.TheVariants.{Export as ExportLine};
ghost use Rattle.config_text.specs.ConfigLines.{import_of};
ghost use Rattle.config_text.specs.Spelled.{HasPrefix, IsNamed, HasLawfulParts};
ghost use Rattle.route_map_text.specs.declared.line.MapLine.TheVariants.{List as ListOf};
ghost use Rattle.route_map_text.specs.MapsLines.{fed, lines_of_lists, network_of, numbered, lines_of_session, lines_of_router};
ghost use Rattle.route_map_text.specs.MapsSpelled.{HavePatterns};

use crate::lines::{
    next_number, push_head, push_in, push_list_line, push_network_line, push_out, push_router_line,
};
use config_base::{Export, Import, Origination, RouterConfig, Session};
use input_output::NoMemory;
use net_base::List;
use route_maps::ListLine;
use text_parts::push_bytes;

// Adds the lines of the list with this number.
fn push_list(text: &mut Vec<u8>, number: u64, lines: &[ListLine]) -> Result<(), NoMemory>
    ensures text { OnOk result (text.new.items ≡ text.old.items ++ flat_map (λ l. fed (ListOf (Some number) l)) lines.now) }
    ensures rules { OnOk result (HavePatterns lines.now) }
{
    for line in lines {
        push_list_line(text, number, *line)?;
    }
    Ok(())
}

/// Adds the lines of the lists, numbered from 1.
pub fn push_lists(text: &mut Vec<u8>, lists: &[List<ListLine>]) -> Result<(), NoMemory>
    ensures text { OnOk result (text.new.items ≡ text.old.items ++ flat_map fed (lines_of_lists 1 lists.now)) }
    ensures rules { OnOk result (AllByRecursion HavePatterns lists.now) }
{
    let mut number = 1;
    for lines in lists {
        push_list(text, number, lines.as_slice())?;
        number += 1;
    }
    Ok(())
}

// Adds the `network` lines.
fn push_networks(text: &mut Vec<u8>, owns: &[Origination]) -> Result<(), NoMemory>
    ensures text { OnOk result (text.new.items ≡ text.old.items ++ flat_map (λ o. fed (network_of o)) owns.now) }
    ensures rules { OnOk result (AllByRecursion HasPrefix owns.now) }
{
    for own in owns {
        push_network_line(text, own)?;
    }
    Ok(())
}

// Adds the `in` lines, numbered from 10.
fn push_ins(text: &mut Vec<u8>, peer: bool, rules: &[Import]) -> Result<(), NoMemory>
    ensures { OnOk result (text.new.items ≡ text.old.items ++ flat_map fed (numbered 10 (map (import_of peer) rules.now))) }
{
    let mut number = 10;
    for rule in rules {
        push_in(text, peer, number, rule)?;
        number = next_number(number)?;
    }
    Ok(())
}

// Adds the `out` lines, numbered from 10.
fn push_outs(text: &mut Vec<u8>, exports: &[Export]) -> Result<(), NoMemory>
    ensures { OnOk result (text.new.items ≡ text.old.items ++ flat_map fed (numbered 10 (map ExportLine exports.now))) }
{
    let mut number = 10;
    for export in exports {
        push_out(text, number, export)?;
        number = next_number(number)?;
    }
    Ok(())
}

// Adds the block of a neighbour.
fn push_session(text: &mut Vec<u8>, session: &Session) -> Result<(), NoMemory>
    ensures text { OnOk result (text.new.items ≡ text.old.items ++ flat_map fed (lines_of_session session.now)) }
    ensures rules { OnOk result (IsNamed session.now) }
{
    push_head(text, session)?;
    push_ins(text, session.peer, session.imports.as_slice())?;
    push_outs(text, session.exports.as_slice())
}

// Adds the blocks of the neighbours.
fn push_sessions(text: &mut Vec<u8>, sessions: &[Session]) -> Result<(), NoMemory>
    ensures text { OnOk result (text.new.items ≡ text.old.items ++ flat_map (λ s. flat_map fed (lines_of_session s)) sessions.now) }
    ensures rules { OnOk result (AllByRecursion IsNamed sessions.now) }
{
    for session in sessions {
        push_session(text, session)?;
    }
    Ok(())
}

// Adds the block of a router.
fn push_router(text: &mut Vec<u8>, router: &RouterConfig) -> Result<(), NoMemory>
    ensures text { OnOk result (text.new.items ≡ text.old.items ++ flat_map fed (lines_of_router router.now)) }
    ensures rules { OnOk result (HasLawfulParts router.now) }
{
    push_router_line(text, &router.name, router.asn, router.id)?;
    push_networks(text, router.own.as_slice())?;
    push_sessions(text, router.sessions.as_slice())?;
    push_bytes(text, b"end\n")
}

/// Adds the blocks of the routers.
pub fn push_routers(text: &mut Vec<u8>, routers: &[RouterConfig]) -> Result<(), NoMemory>
    ensures text { OnOk result (text.new.items ≡ text.old.items ++ flat_map (λ r. flat_map fed (lines_of_router r)) routers.now) }
    ensures rules { OnOk result (AllByRecursion HasLawfulParts routers.now) }
{
    for router in routers {
        push_router(text, router)?;
    }
    Ok(())
}
