//! Lists of routers and of sessions. Each `push_` function adds a text to the end of another.
ghost use Rattle.std.specs.Prelude.{◌≡◌, ◌++◌, IfOk, OnOk, filter, nat_lt, not};
ghost use Rattle.std.specs.List.{flat_map};
ghost use Rattle.net_base.specs.Sets.{holds};
ghost use Rattle.compare_lines.specs.Lists.{all_routers, routers_line, routers_text};
ghost use Rattle.compare_lines.specs.Lists.{sessions_text};
ghost use Rattle.compare_lines.specs.Lists.{all_routers_but, all_sessions_but, but_text, next_session, router_list, router_names, session_list, session_name, session_names, sessions_of as sessions_in, these_routers, these_sessions};

use input_output::NoMemory;
use net_base::{List, Loc, LocSet, Net};
use outcome_report::push_next;
use std::alloc::{AllocError, Global};
use text_parts::push_bytes;

// Adds the names of routers, each after a space.
fn push_names(text: &mut Vec<u8>, net: &Net, routers: &[Loc]) -> Result<(), NoMemory>
    ensures { OnOk result (text.new.items ≡ text.old.items ++ router_names net.now routers.now) }
{
    for router in routers {
        push_next(text, net, *router)?;
    }
    Ok(())
}

// Adds the names of all routers but these, where there are some of them.
fn push_but(text: &mut Vec<u8>, net: &Net, routers: &[Loc]) -> Result<(), NoMemory>
    ensures { OnOk result (text.new.items ≡ text.old.items ++ but_text (router_names net.now) routers.now) }
{
    match routers {
        [] => Ok(()),
        [_, ..] => {
            push_bytes(text, b" but")?;
            push_names(text, net, routers)
        }
    }
}

// Whether the others are fewer than these.
fn are_fewer(others: usize, these: usize) -> bool
    ensures { result ≡ nat_lt others these }
{
    others < these
}

// Adds all routers but the others.
fn push_all_but(text: &mut Vec<u8>, net: &Net, others: &[Loc]) -> Result<(), NoMemory>
    ensures { OnOk result (text.new.items ≡ text.old.items ++ all_routers_but net.now others.now) }
{
    push_bytes(text, b"all routers")?;
    push_but(text, net, others)?;
    Ok(())
}

// Adds these routers.
fn push_these(text: &mut Vec<u8>, net: &Net, these: &[Loc]) -> Result<(), NoMemory>
    ensures { OnOk result (text.new.items ≡ text.old.items ++ these_routers net.now these.now) }
{
    push_bytes(text, b"routers")?;
    push_names(text, net, these)
}

// Adds a list of routers, or of the others where they are fewer.
fn push_list(text: &mut Vec<u8>, net: &Net, these: &[Loc], others: &[Loc]) -> Result<(), NoMemory>
    ensures { OnOk result (text.new.items ≡ text.old.items ++ router_list net.now these.now others.now) }
{
    if are_fewer(others.len(), these.len()) {
        push_all_but(text, net, others)
    } else {
        push_these(text, net, these)
    }
}

/// Adds a line of routers, or of all but the others, where there are some.
pub fn push_routers(
    text: &mut Vec<u8>,
    net: &Net,
    word: &[u8],
    these: &[Loc],
    others: &[Loc],
) -> Result<(), NoMemory>
    ensures { OnOk result (text.new.items ≡ text.old.items ++ routers_text net.now word.now these.now others.now) }
{
    match these {
        [] => Ok(()),
        [_, ..] => {
            push_bytes(text, word)?;
            push_list(text, net, these, others)?;
            push_bytes(text, b"\n")
        }
    }
}

/// Routers of which something is so, and the others, in order.
#[derive(Drop)]
pub struct RouterParts {
    /// The routers of which it is so.
    pub these: Vec<Loc>,
    /// The other routers.
    pub others: Vec<Loc>,
}

/// The routers of the network.
pub fn routers_of(alloc: Global, net: &Net) -> Result<Vec<Loc>, AllocError>
    ensures { IfOk result (λ routers. routers.items ≡ all_routers net.now) }
{
    let mut routers = Vec::new(alloc);
    for place in 0..net.routers().len() {
        routers.push(Loc::new(place as u16))?;
    }
    Ok(routers)
}

// Those of some routers that a set holds.
fn held(alloc: Global, routers: &[Loc], set: &LocSet) -> Result<Vec<Loc>, AllocError>
    ensures { IfOk result (λ list. list.items ≡ filter (holds set.now) routers.now) }
{
    let mut list = Vec::new(alloc);
    for router in routers {
        if set.holds(*router) {
            list.push(*router)?;
        }
    }
    Ok(list)
}

// Those of some routers that a set doesn't hold.
fn not_held(alloc: Global, routers: &[Loc], set: &LocSet) -> Result<Vec<Loc>, AllocError>
    ensures { IfOk result (λ list. list.items ≡ filter (λ r. not (holds set.now r)) routers.now) }
{
    let mut list = Vec::new(alloc);
    for router in routers {
        if !set.holds(*router) {
            list.push(*router)?;
        }
    }
    Ok(list)
}

// The routers of the network that a set holds, and the others.
fn parted_all(alloc: Global, net: &Net, set: &LocSet) -> Result<RouterParts, AllocError>
    ensures these { IfOk result (λ p. p.these.items ≡ filter (holds set.now) (all_routers net.now)) }
    ensures others { IfOk result (λ p. p.others.items ≡ filter (λ r. not (holds set.now r)) (all_routers net.now)) }
{
    let routers = routers_of(alloc, net)?;
    let these = held(alloc, &routers, set)?;
    let others = not_held(alloc, &routers, set)?;
    Ok(RouterParts { these, others })
}

/// Adds a line of the routers that a set holds, where it holds some.
pub fn push_set(
    alloc: Global,
    text: &mut Vec<u8>,
    net: &Net,
    word: &[u8],
    set: &LocSet,
) -> Result<(), NoMemory>
    ensures { OnOk result (text.new.items ≡ text.old.items ++ routers_line net.now word.now (holds set.now) (all_routers net.now)) }
{
    let parts = parted_all(alloc, net, set)?;
    push_routers(text, net, word, &parts.these, &parts.others)
}

/// The sessions of routers to peers, by router and peer.
pub fn sessions_of(alloc: Global, net: &Net) -> Result<List<(Loc, Loc)>, AllocError>
    ensures { IfOk result (λ sessions. sessions ≡ sessions_in net.now) }
{
    let mut sessions = List::new(alloc);
    for link in net.links() {
        if net.is_router(link.0) && net.is_peer(link.1) {
            sessions.push(*link)?;
        }
    }
    Ok(sessions)
}

// Adds the names of a session's router and peer.
fn push_session(text: &mut Vec<u8>, net: &Net, session: (Loc, Loc)) -> Result<(), NoMemory>
    ensures { OnOk result (text.new.items ≡ text.old.items ++ session_name net.now session) }
{
    push_next(text, net, session.0)?;
    push_next(text, net, session.1)
}

// Adds the names of further sessions.
fn push_more(text: &mut Vec<u8>, net: &Net, sessions: &[(Loc, Loc)]) -> Result<(), NoMemory>
    ensures { OnOk result (text.new.items ≡ text.old.items ++ flat_map (next_session net.now) sessions.now) }
{
    for session in sessions {
        push_bytes(text, b",")?;
        push_session(text, net, *session)?;
    }
    Ok(())
}

// Adds the names of sessions, with commas between them.
fn push_all(text: &mut Vec<u8>, net: &Net, sessions: &[(Loc, Loc)]) -> Result<(), NoMemory>
    ensures { OnOk result (text.new.items ≡ text.old.items ++ session_names net.now sessions.now) }
{
    match sessions {
        [] => Ok(()),
        [first, rest @ ..] => {
            push_session(text, net, *first)?;
            push_more(text, net, rest)
        }
    }
}

// Adds the names of all sessions but these, where there are some of them.
fn push_but_sessions(text: &mut Vec<u8>, net: &Net, sessions: &[(Loc, Loc)]) -> Result<(), NoMemory>
    ensures { OnOk result (text.new.items ≡ text.old.items ++ but_text (session_names net.now) sessions.now) }
{
    match sessions {
        [] => Ok(()),
        [_, ..] => {
            push_bytes(text, b" but")?;
            push_all(text, net, sessions)
        }
    }
}

// Adds all sessions but the others.
fn push_all_sessions_but(
    text: &mut Vec<u8>,
    net: &Net,
    others: &[(Loc, Loc)],
) -> Result<(), NoMemory>
    ensures { OnOk result (text.new.items ≡ text.old.items ++ all_sessions_but net.now others.now) }
{
    push_bytes(text, b"all sessions")?;
    push_but_sessions(text, net, others)?;
    Ok(())
}

// Adds these sessions.
fn push_these_sessions(text: &mut Vec<u8>, net: &Net, these: &[(Loc, Loc)]) -> Result<(), NoMemory>
    ensures { OnOk result (text.new.items ≡ text.old.items ++ these_sessions net.now these.now) }
{
    push_bytes(text, b"sessions")?;
    push_all(text, net, these)
}

// Adds a list of sessions, or of the others where they are fewer.
fn push_session_list(
    text: &mut Vec<u8>,
    net: &Net,
    these: &[(Loc, Loc)],
    others: &[(Loc, Loc)],
) -> Result<(), NoMemory>
    ensures { OnOk result (text.new.items ≡ text.old.items ++ session_list net.now these.now others.now) }
{
    if are_fewer(others.len(), these.len()) {
        push_all_sessions_but(text, net, others)
    } else {
        push_these_sessions(text, net, these)
    }
}

/// Adds a line of sessions, or of all but the others, where there are some.
pub fn push_sessions(
    text: &mut Vec<u8>,
    net: &Net,
    these: &[(Loc, Loc)],
    others: &[(Loc, Loc)],
) -> Result<(), NoMemory>
    ensures { OnOk result (text.new.items ≡ text.old.items ++ sessions_text net.now these.now others.now) }
{
    match these {
        [] => Ok(()),
        [_, ..] => {
            push_session_list(text, net, these, others)?;
            push_bytes(text, b"\n")
        }
    }
}
