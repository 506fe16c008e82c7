//! How many lines the text of maps has.
ghost use Rattle.std.specs.Prelude.{◌≡◌, min, sum_by};
ghost use Rattle.map_maker.specs.Counts.{lines_of_session, lines_of_router};
ghost use Rattle.map_maker.specs.Earlier.{top};

use config_base::{RouterConfig, Session};

// The lines of a neighbour's block, at most 18446744073709551615.
fn session_lines(session: &Session) -> u64
    ensures { result ≡ min (lines_of_session session.now) top }
{
    let imports = session.imports.as_slice().len() as u64;
    let exports = session.exports.as_slice().len() as u64;
    imports.saturating_add(exports).saturating_add(1)
}

// The lines of the blocks of neighbours, at most 18446744073709551615.
fn sessions_lines(sessions: &[Session]) -> u64
    ensures { result ≡ min (sum_by lines_of_session sessions.now) top }
{
    let mut total = 0u64;
    for session in sessions {
        total = total.saturating_add(session_lines(session));
    }
    total
}

// The lines of a router's block, at most 18446744073709551615.
fn router_lines(router: &RouterConfig) -> u64
    ensures { result ≡ min (lines_of_router router.now) top }
{
    let own = router.own.as_slice().len() as u64;
    sessions_lines(router.sessions.as_slice())
        .saturating_add(own)
        .saturating_add(2)
}

/// The lines of the blocks of routers, at most 18446744073709551615.
pub fn routers_lines(routers: &[RouterConfig]) -> u64
    ensures { result ≡ min (sum_by lines_of_router routers.now) top }
{
    let mut total = 0u64;
    for router in routers {
        total = total.saturating_add(router_lines(router));
    }
    total
}
