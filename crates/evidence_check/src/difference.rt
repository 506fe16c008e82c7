//! The block of a configuration in which a line stands.
ghost use Rattle.std.specs.Prelude.{◌≡◌, ◌+◌, ◌-◌, ◌^◌, ◌<◌, length, Some, None, if◌then◌else◌};
ghost use Rattle.evidence_verdicts.specs.Verdicts.{all_session_lines, block_after, block_of as block_with, router_lines, session_lines};
ghost use Rattle.evidence_check.specs.Difference.{lines_behind};

use config_base::{Config, RouterConfig, Session};

// How many of so many lines are left behind the block of a neighbour, or None where it has more lines.
fn behind_session(lines: u64, session: &Session) -> Option<u64>
    ensures { result ≡ lines_behind lines (session_lines session.now) }
{
    lines
        .checked_sub(1)?
        .checked_sub(session.imports.as_slice().len() as u64)?
        .checked_sub(session.exports.as_slice().len() as u64)
}

// How many are left behind the blocks of all neighbours.
fn behind_sessions(lines: u64, sessions: &[Session]) -> Option<u64>
    ensures { result ≡ lines_behind lines (all_session_lines sessions.now) }
{
    let mut left = lines;
    for session in sessions {
        left = behind_session(left, session)?;
    }
    Some(left)
}

// How many are left behind the block of a router.
fn behind_router(lines: u64, router: &RouterConfig) -> Option<u64>
    ensures { result ≡ lines_behind lines (router_lines router.now) }
{
    let left = lines.checked_sub(2)?;
    let left = left.checked_sub(router.own.as_slice().len() as u64)?;
    behind_sessions(left, router.sessions.as_slice())
}

// The number of the router, from 0, in whose block the line stands that comes after so many others; 0 where it is in none.
fn block_behind(routers: &[RouterConfig], lines: u64) -> u32
    requires { length routers.now < 2 ^ 32 }
    ensures { result ≡ block_after 0 lines routers.now }
{
    let mut left = lines;
    for place in 0..routers.len() {
        match behind_router(left, &routers[place]) {
            Some(rest) => left = rest,
            None => return place as u32,
        }
    }
    0
}

/// The router in whose block a line of a configuration's text stands, 0 where it is in none.
pub fn block_of(config: &Config, line: u64) -> u32
    requires { length config.now.routers < 2 ^ 32 }
    ensures { result ≡ block_with config.now line }
{
    match line.checked_sub(config.classes().len() as u64 + 2) {
        Some(lines) => block_behind(config.routers(), lines),
        None => 0,
    }
}
