//! Lines of sessions of routers to peers. Each `push_` function adds a text to the end of another.
ghost use Rattle.std.specs.Prelude.{◌≡◌, ◌++◌, ◌+◌, ◌<◌, OnOk, slice_get};
ghost use Rattle.std.specs.List.{flat_map};
ghost use Rattle.net_base.specs.Locations.{numbers_below};
ghost use Rattle.promises_report.specs.Places.{sessions_of};
ghost use Rattle.promises_text.specs.Texts.{
  line_of,
  session_name,
  session_source,
  unclaimed_sessions,
  wanted_session,
  wanted_sessions,
};

use crate::line::{push_line, tail_of};
use input_output::NoMemory;
use net_base::{Loc, Net};
use outcome_report::push_next;
use promises_report::{Group, Standing, Wanted, entry, is_wanted};
use std::alloc::Global;

// The session at a place, if there is one.
fn session_at(sessions: &[(Loc, Loc)], place: usize) -> Option<(Loc, Loc)>
    ensures { result ≡ slice_get sessions.now place }
{
    match sessions.get(place) {
        None => None,
        Some(session) => Some(*session),
    }
}

// Adds the router and the peer of a session, if there is one.
fn push_session_name(
    text: &mut Vec<u8>,
    net: &Net,
    session: Option<(Loc, Loc)>,
) -> Result<(), NoMemory>
    ensures { OnOk result (text.new.items ≡ text.old.items ++ session_name net.now session) }
{
    match session {
        None => Ok(()),
        Some(session) => {
            push_next(text, net, session.0)?;
            push_next(text, net, session.1)
        }
    }
}

// Adds a session, where a line tells of it.
#[tactic(auto, unfolding(crate::specs::Texts::wanted_session))]
fn push_session(
    text: &mut Vec<u8>,
    net: &Net,
    sessions: &[(Loc, Loc)],
    standings: &[Option<Standing>],
    wanted: Wanted,
    place: usize,
) -> Result<(), NoMemory>
    ensures { OnOk result (text.new.items ≡ text.old.items ++ wanted_session net.now sessions.now standings.now wanted place) }
{
    if !is_wanted(wanted, entry(standings, place)) {
        return Ok(());
    }
    push_session_name(text, net, session_at(sessions, place))
}

// Adds the sessions of which a line tells.
fn push_sessions(
    text: &mut Vec<u8>,
    net: &Net,
    sessions: &[(Loc, Loc)],
    standings: &[Option<Standing>],
    wanted: Wanted,
) -> Result<(), NoMemory>
    ensures { OnOk result (text.new.items ≡ text.old.items ++ wanted_sessions net.now sessions.now standings.now wanted) }
{
    for place in 0..sessions.len() {
        push_session(text, net, sessions, standings, wanted, place)?;
    }
    Ok(())
}

// Adds a line of sessions.
fn push_session_line(
    alloc: Global,
    text: &mut Vec<u8>,
    net: &Net,
    head: &[u8],
    sessions: &[(Loc, Loc)],
    standings: &[Option<Standing>],
    wanted: Wanted,
    tail: &[u8],
) -> Result<(), NoMemory>
    ensures { OnOk result (text.new.items ≡ text.old.items ++ line_of head.now (wanted_sessions net.now sessions.now standings.now wanted) tail.now) }
{
    let mut names = Vec::new(alloc);
    push_sessions(&mut names, net, sessions, standings, wanted)?;
    push_line(text, head, &names, tail)
}

// Adds the line of the sessions whose best rank is 1 more than `place`.
#[tactic(auto, unfolding(crate::specs::Texts::session_source))]
fn push_session_source(
    alloc: Global,
    text: &mut Vec<u8>,
    net: &Net,
    sessions: &[(Loc, Loc)],
    group: &Group,
    place: u64,
) -> Result<(), NoMemory>
    requires place { place < 18446744073709551615 }
    requires sessions { sessions.now ≡ sessions_of net.now }
    ensures { OnOk result (text.new.items ≡ text.old.items ++ session_source net.now group.now place) }
{
    let tail = tail_of(alloc, place + 1)?;
    push_session_line(
        alloc,
        text,
        net,
        b"source session",
        sessions,
        group.sessions.as_slice(),
        Wanted::Source(place + 1),
        &tail,
    )
}

/// Adds the lines of the sessions that are claimed, by rank, of so many.
pub fn push_session_sources(
    alloc: Global,
    text: &mut Vec<u8>,
    net: &Net,
    sessions: &[(Loc, Loc)],
    group: &Group,
    ranks: u64,
) -> Result<(), NoMemory>
    requires { sessions.now ≡ sessions_of net.now }
    ensures { OnOk result (text.new.items ≡ text.old.items ++ flat_map (session_source net.now group.now) (numbers_below ranks)) }
{
    for place in 0..ranks {
        push_session_source(alloc, text, net, sessions, group, place)?;
    }
    Ok(())
}

/// Adds the line of the sessions that aren't claimed.
#[tactic(auto, unfolding(crate::specs::Texts::unclaimed_sessions))]
pub fn push_unclaimed_sessions(
    alloc: Global,
    text: &mut Vec<u8>,
    net: &Net,
    sessions: &[(Loc, Loc)],
    group: &Group,
) -> Result<(), NoMemory>
    requires { sessions.now ≡ sessions_of net.now }
    ensures { OnOk result (text.new.items ≡ text.old.items ++ unclaimed_sessions net.now group.now) }
{
    push_session_line(
        alloc,
        text,
        net,
        b"unclaimed session",
        sessions,
        group.sessions.as_slice(),
        Wanted::Unclaimed,
        b"\n",
    )
}
