//! The block of a router that is being read, and what the next line makes of it.
ghost use Rattle.net_base.specs.Gives.{GivesUnless};
ghost use Rattle.config_reader.specs.Reading.{closed, own_into, neighbour_into, import_into, export_into, entry_into, inside};
ghost use Rattle.config_reader.specs.Reading.{in_neighbour as within_neighbour};

use crate::order::{export_ascends, import_ascends, origination_ascends};
use crate::reading::{Misplaced, OpenRouter};
use config_base::{Export, Import, Origination, RouterConfig, Session};
use config_lines::Line;
use net_base::{List, Name};
use std::alloc::Global;

// One more route of its own in the block of a router.
#[tactic(auto, unfolding(crate::specs::Reading::own_into))]
fn push_origination(current: &mut OpenRouter, line: Origination) -> Result<(), Misplaced>
    ensures { GivesUnless Misplaced.NoMemory (λ _. current.new) result (own_into current.old line) }
{
    if current.block.is_some() {
        return Err(Misplaced::Order);
    }
    if !origination_ascends(current.router.own.as_slice(), &line) {
        return Err(Misplaced::Order);
    }
    current.router.own.push(line)?;
    Ok(())
}

// Ends the block of a neighbour in that of a router, if one was open.
fn close(router: &mut RouterConfig, block: Option<Session>) -> Result<(), Misplaced>
    ensures { GivesUnless Misplaced.NoMemory (λ _. router.new) result (Ok (closed router.old block)) }
{
    if let Some(session) = block {
        router.sessions.push(session)?;
    }
    Ok(())
}

// Begins the block of a neighbour in that of a router.
#[tactic(auto, unfolding(crate::specs::Reading::neighbour_into))]
fn begin_block(
    alloc: Global,
    current: &mut OpenRouter,
    peer: bool,
    name: Name,
    asn: u32,
) -> Result<(), Misplaced>
    ensures { GivesUnless Misplaced.NoMemory (λ _. current.new) result (neighbour_into peer current.old name asn) }
{
    if !current.names.insert(alloc, &name)? {
        return Err(Misplaced::Twice);
    }
    let session = Session {
        name,
        asn,
        peer,
        imports: List::new(alloc),
        exports: List::new(alloc),
    };
    let before = current.block.replace(session);
    close(&mut current.router, before)
}

// One more import in the block of a neighbour.
#[tactic(auto, unfolding(crate::specs::Reading::import_into))]
fn add_import(session: &mut Session, peer: bool, line: Import) -> Result<(), Misplaced>
    ensures { GivesUnless Misplaced.NoMemory (λ _. session.new) result (import_into peer session.old line) }
{
    if session.peer != peer || !session.exports.as_slice().is_empty() {
        return Err(Misplaced::Order);
    }
    if !import_ascends(session.imports.as_slice(), &line) {
        return Err(Misplaced::Order);
    }
    session.imports.push(line)?;
    Ok(())
}

// One more export in the block of a neighbour.
#[tactic(auto, unfolding(crate::specs::Reading::export_into))]
fn add_export(session: &mut Session, line: Export) -> Result<(), Misplaced>
    ensures { GivesUnless Misplaced.NoMemory (λ _. session.new) result (export_into session.old line) }
{
    if !export_ascends(session.exports.as_slice(), &line) {
        return Err(Misplaced::Order);
    }
    session.exports.push(line)?;
    Ok(())
}

// One more line in the block of a neighbour.
fn add_entry(session: &mut Session, line: &Line) -> Result<(), Misplaced>
    ensures { GivesUnless Misplaced.NoMemory (λ _. session.new) result (entry_into session.old line.now) }
{
    match line {
        Line::Import(rule) => add_import(session, false, *rule),
        Line::PeerImport(rule) => add_import(session, true, *rule),
        Line::Export(export) => add_export(session, *export),
        _ => Err(Misplaced::Order),
    }
}

// One more line in the block of a neighbour that is open in that of a router.
#[tactic(auto, unfolding(crate::specs::Reading::in_neighbour))]
fn in_neighbour(current: &mut OpenRouter, line: &Line) -> Result<(), Misplaced>
    ensures { GivesUnless Misplaced.NoMemory (λ _. current.new) result (within_neighbour current.old line.now) }
{
    match &mut current.block {
        Some(session) => add_entry(session, line),
        None => Err(Misplaced::Order),
    }
}

/// One more line in the block of a router, which doesn't end it. After an error the block may lack what it had.
pub fn add_inside(alloc: Global, current: &mut OpenRouter, line: Line) -> Result<(), Misplaced>
    ensures { GivesUnless Misplaced.NoMemory (λ _. current.new) result (inside current.old line) }
{
    match line {
        Line::Origination(own) => push_origination(current, own),
        Line::Session(name, asn) => begin_block(alloc, current, false, name, asn),
        Line::Peer(name, asn) => begin_block(alloc, current, true, name, asn),
        line => in_neighbour(current, &line),
    }
}

/// The router whose block ends.
pub fn closed_router(current: OpenRouter) -> Result<RouterConfig, Misplaced>
    ensures { GivesUnless Misplaced.NoMemory (λ r. r) result (Ok (closed current.router current.block)) }
{
    let OpenRouter {
        mut router,
        names: _,
        block,
    } = current;
    close(&mut router, block)?;
    Ok(router)
}
