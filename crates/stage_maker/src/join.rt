//! The configuration of a stage.
ghost use Rattle.std.specs.Prelude.{◌≡◌, ◌<◌, ◌^◌, [], IfOk, length, min, if◌then◌else◌};
ghost use Rattle.std.specs.List.{AllByRecursion};
ghost use Rattle.stage_maker.specs.Alike.{AreOrdered, HasOrder};
ghost use Rattle.stage_maker.specs.Joined.{classes_of as patterns_of, joined as of_both, router_of, routers_of, session_of, sessions_of};
ghost use Rattle.stage_maker.specs.Laws.{MayJoin};

use crate::own::own_lines;
use config_base::{Config, Import, RouterConfig, Session};
use net_base::{List, Pattern};
use stage_blocks::spread;
use stage_classes::Cell;
use std::alloc::{AllocError, Global};

// The smaller of two counts.
fn shorter(a: usize, b: usize) -> usize
    ensures { result ≡ min a b }
{
    a.min(b)
}

// The imports that a block of the second configuration adds: none, where its neighbour is a peer.
fn added(peer: bool, other: &Session) -> &[Import]
    ensures { result.now ≡ (if peer then [] else other.now.imports) }
{
    if peer {
        &other.imports.as_slice()[..0]
    } else {
        other.imports.as_slice()
    }
}

// The block of a neighbour.
fn joined_session(
    alloc: Global,
    cells: &[Cell],
    start: &Session,
    other: &Session,
) -> Result<Session, AllocError>
    requires few { length cells.now < 2 ^ 32 }
    requires start { HasOrder start.now }
    requires other { HasOrder other.now }
    ensures { IfOk result (λ s. s ≡ session_of cells.now start.now other.now) }
{
    let imports = spread(
        alloc,
        cells,
        start.imports.as_slice(),
        added(start.peer, other),
    )?;
    let exports = spread(
        alloc,
        cells,
        start.exports.as_slice(),
        other.exports.as_slice(),
    )?;
    Ok(Session {
        name: start.name,
        asn: start.asn,
        peer: start.peer,
        imports,
        exports,
    })
}

// The blocks of a router's neighbours.
fn joined_sessions(
    alloc: Global,
    cells: &[Cell],
    start: &[Session],
    other: &[Session],
) -> Result<List<Session>, AllocError>
    requires few { length cells.now < 2 ^ 32 }
    requires start { AllByRecursion HasOrder start.now }
    requires other { AllByRecursion HasOrder other.now }
    ensures { IfOk result (λ l. l ≡ sessions_of cells.now start.now other.now) }
{
    let mut sessions = List::new(alloc);
    let count = shorter(start.len(), other.len());
    for i in 0..count {
        sessions.push(joined_session(alloc, cells, &start[i], &other[i])?)?;
    }
    Ok(sessions)
}

// The block of a router.
fn joined_router(
    alloc: Global,
    cells: &[Cell],
    start: &RouterConfig,
    other: &RouterConfig,
) -> Result<RouterConfig, AllocError>
    requires few { length cells.now < 2 ^ 32 }
    requires start { AreOrdered start.now }
    requires other { AreOrdered other.now }
    ensures { IfOk result (λ r. r ≡ router_of cells.now start.now other.now) }
{
    let own = own_lines(alloc, cells, start.own.as_slice())?;
    let sessions = joined_sessions(
        alloc,
        cells,
        start.sessions.as_slice(),
        other.sessions.as_slice(),
    )?;
    Ok(RouterConfig {
        name: start.name,
        asn: start.asn,
        id: start.id,
        own,
        sessions,
    })
}

// The blocks of all routers.
fn joined_routers(
    alloc: Global,
    cells: &[Cell],
    start: &[RouterConfig],
    other: &[RouterConfig],
) -> Result<List<RouterConfig>, AllocError>
    requires few { length cells.now < 2 ^ 32 }
    requires start { AllByRecursion AreOrdered start.now }
    requires other { AllByRecursion AreOrdered other.now }
    ensures { IfOk result (λ l. l ≡ routers_of cells.now start.now other.now) }
{
    let mut routers = List::new(alloc);
    let count = shorter(start.len(), other.len());
    for i in 0..count {
        routers.push(joined_router(alloc, cells, &start[i], &other[i])?)?;
    }
    Ok(routers)
}

// The patterns of the cells.
fn patterns(alloc: Global, cells: &[Cell]) -> Result<List<List<Pattern>>, AllocError>
    ensures { IfOk result (λ l. l ≡ patterns_of cells.now) }
{
    let mut classes = List::new(alloc);
    for cell in cells {
        classes.push(cell.patterns.copy(alloc)?)?;
    }
    Ok(classes)
}

/// The configuration that has the lines of two of the same routers, and the starts of the first of them. The cells say which of their
/// classes come together.
#[tactic(auto, using(crate::proofs::Lawful::are_ordered, crate::proofs::Lawful::stages_are_lawful))]
pub fn joined(
    alloc: Global,
    cells: &[Cell],
    start: &Config,
    other: &Config,
) -> Result<Config, AllocError>
    requires { MayJoin cells.now start.now other.now }
    ensures { IfOk result (λ config. config ≡ of_both cells.now start.now other.now) }
{
    let routers = joined_routers(alloc, cells, start.routers(), other.routers())?;
    let classes = patterns(alloc, cells)?;
    Ok(Config::new(classes, routers))
}
