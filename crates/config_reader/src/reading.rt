//! What was read so far, and what the next line makes of it.
ghost use Rattle.std.specs.Prelude.{◌≡◌, ◌==◌, ◌&&◌, ◌++◌, ◌∷◌, [], None, Ok, is_none, length};
ghost use Rattle.net_base.specs.Gives.{GivesUnless};
ghost use Rattle.config_reader.specs.Reading.{opening, is_next as next, takes_class as takes_class_line, takes_router as takes_router_line, after as after_line};
ghost use Rattle.config_reader.specs.Reading.{with_class, with_router, in_router, with_end};

use crate::block::{add_inside, closed_router};
use crate::names::Names;
use crate::routers::Routers;
use config_base::{RouterConfig, Session};
use config_lines::Line;
use net_base::{List, Name, Pattern};
use std::alloc::{AllocError, AllocFailed, Global};
use std::mem::replace;

/// The block of a router that is being read.
#[derive(Drop)]
pub struct OpenRouter {
    /// The router, with those blocks of its neighbours that are read.
    pub router: RouterConfig,
    /// The names of the neighbours so far.
    pub names: Names,
    /// The block of a neighbour that is being read.
    pub block: Option<Session>,
}

/// What was read so far.
#[derive(Drop)]
pub struct Reading {
    /// The patterns of each class.
    pub classes: List<List<Pattern>>,
    /// The routers whose blocks are read.
    pub routers: Routers,
    /// The router whose block is being read.
    pub opened: Option<OpenRouter>,
}

/// Why a line can't follow those before it.
#[derive(Clone, Copy, Debug, PartialEq, Eq)]
pub enum Misplaced {
    /// It may not stand there, its class number isn't the next, or it doesn't ascend.
    Order,
    /// What it names stood before.
    Twice,
    /// There was not enough memory.
    NoMemory,
}

impl<T: Drop> From<AllocFailed<T>> for Misplaced {
    ghost use Rattle.std.specs.Prelude.{◌≡◌};
    ghost use Rattle.config_reader.specs.declared.reading.Misplaced.TheVariants.{NoMemory};

    ghost from_gives = { λ _ e. e ≡ NoMemory };

    fn from(_e: AllocFailed<T>) -> Misplaced {
        Misplaced::NoMemory
    }
}

impl From<AllocError> for Misplaced {
    ghost use Rattle.std.specs.Prelude.{◌≡◌};
    ghost use Rattle.config_reader.specs.declared.reading.Misplaced.TheVariants.{NoMemory};

    ghost from_gives = { λ _ e. e ≡ NoMemory };

    fn from(_e: AllocError) -> Misplaced {
        Misplaced::NoMemory
    }
}

/// Nothing was read but the first line.
pub fn nothing_read(alloc: Global) -> Reading
    ensures { result ≡ opening }
{
    Reading {
        classes: List::new(alloc),
        routers: Routers::new(alloc),
        opened: None,
    }
}

// Whether the number of a class is the next after so many.
fn is_next(number: Option<u32>, classes: usize) -> bool
    ensures { result ≡ next number classes }
{
    match number {
        Some(n) => n > 0 && n as usize - 1 == classes,
        None => false,
    }
}

// Whether the line of a class may follow: no router's block stands before it.
fn is_before_routers(reading: &Reading) -> bool
    ensures { result ≡ (is_none reading.now.opened && length reading.now.routers == 0) }
{
    reading.opened.is_none() && reading.routers.is_empty()
}

// Whether the line of a class with this number may follow.
fn takes_class(reading: &Reading, number: Option<u32>) -> bool
    ensures { result ≡ takes_class_line reading.now number }
{
    is_before_routers(reading) && is_next(number, reading.classes.as_slice().len())
}

// The line of a class.
#[tactic(auto, unfolding(crate::specs::Reading::with_class))]
fn add_class(
    reading: &mut Reading,
    number: Option<u32>,
    patterns: List<Pattern>,
) -> Result<(), Misplaced>
    ensures { GivesUnless Misplaced.NoMemory (λ _. reading.new) result (with_class reading.old number patterns) }
{
    if !takes_class(reading, number) {
        return Err(Misplaced::Order);
    }
    reading.classes.push(patterns)?;
    Ok(())
}

// Whether the head line of a router may follow.
fn takes_router(reading: &Reading, name: &Name, asn: u32, id: u32) -> Result<(), Misplaced>
    ensures { result ≡ takes_router_line reading.now name.now asn id }
{
    if reading.opened.is_some() {
        return Err(Misplaced::Order);
    }
    if reading.routers.are_like(name, asn, id) {
        return Err(Misplaced::Twice);
    }
    Ok(())
}

// The block of a router, of which the head line was read.
fn open_router(alloc: Global, name: Name, asn: u32, id: u32) -> OpenRouter
    ensures { result ≡ record { router = record { name = name; asn = asn; id = id; own = []; sessions = [] }; names = []; block = None } }
{
    let router = RouterConfig {
        name,
        asn,
        id,
        own: List::new(alloc),
        sessions: List::new(alloc),
    };
    OpenRouter {
        router,
        names: Names::new(alloc),
        block: None,
    }
}

// The head line of a router.
#[tactic(auto, unfolding(crate::specs::Reading::with_router))]
fn begin_router(
    alloc: Global,
    reading: &mut Reading,
    name: Name,
    asn: u32,
    id: u32,
) -> Result<(), Misplaced>
    ensures { GivesUnless Misplaced.NoMemory (λ _. reading.new) result (with_router reading.old name asn id) }
{
    takes_router(reading, &name, asn, id)?;
    reading.opened = Some(open_router(alloc, name, asn, id));
    Ok(())
}

// A line inside the block of a router.
#[tactic(auto, unfolding(crate::specs::Reading::in_router))]
fn continue_router(alloc: Global, reading: &mut Reading, line: Line) -> Result<(), Misplaced>
    ensures { GivesUnless Misplaced.NoMemory (λ _. reading.new) result (in_router reading.old line) }
{
    match &mut reading.opened {
        Some(current) => add_inside(alloc, current, line),
        None => Err(Misplaced::Order),
    }
}

// Puts a router behind the others. After an error they are gone.
fn add_router(alloc: Global, routers: &mut Routers, router: RouterConfig) -> Result<(), Misplaced>
    ensures { GivesUnless Misplaced.NoMemory (λ _. routers.new) result (Ok (routers.old ++ router ∷ [])) }
{
    let others = replace(routers, Routers::new(alloc));
    let more = others.with(alloc, router)?;
    drop(replace(routers, more));
    Ok(())
}

// The end of a router's block.
#[tactic(auto, unfolding(crate::specs::Reading::with_end))]
fn end_router(alloc: Global, reading: &mut Reading) -> Result<(), Misplaced>
    ensures { GivesUnless Misplaced.NoMemory (λ _. reading.new) result (with_end reading.old) }
{
    let Some(current) = reading.opened.take() else {
        return Err(Misplaced::Order);
    };
    let router = closed_router(current)?;
    add_router(alloc, &mut reading.routers, router)
}

/// Reads one more line, or says why it can't follow. After an error some of what was read may be gone.
pub fn follow(alloc: Global, reading: &mut Reading, line: Line) -> Result<(), Misplaced>
    ensures { GivesUnless Misplaced.NoMemory (λ _. reading.new) result (after_line reading.old line) }
{
    match line {
        Line::Class(number, patterns) => add_class(reading, number, patterns),
        Line::Router(name, asn, id) => begin_router(alloc, reading, name, asn, id),
        Line::End => end_router(alloc, reading),
        line => continue_router(alloc, reading, line),
    }
}

/// What was read so far with one more line, or why the line can't follow.
pub fn after(alloc: Global, reading: Reading, line: Line) -> Result<Reading, Misplaced>
    ensures { GivesUnless Misplaced.NoMemory (λ r. r) result (after_line reading line) }
{
    let mut next = reading;
    let followed = follow(alloc, &mut next, line);
    followed.and(Ok(next))
}
