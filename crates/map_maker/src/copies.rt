//! Copies of routers' blocks.
ghost use Rattle.std.specs.Prelude.{◌≡◌, IfOk};

use config_base::{RouterConfig, Session};
use net_base::List;
use std::alloc::{AllocError, Global};

// What owns memory is copied field by field, since a copy may find none.
// A copy of a neighbour's block.
fn session_copy(alloc: Global, session: &Session) -> Result<Session, AllocError>
    ensures { IfOk result (λ copy. copy ≡ session.now) }
{
    Ok(Session {
        name: session.name,
        asn: session.asn,
        peer: session.peer,
        imports: session.imports.copy(alloc)?,
        exports: session.exports.copy(alloc)?,
    })
}

// A copy of the blocks of neighbours.
fn sessions_copy(alloc: Global, sessions: &[Session]) -> Result<List<Session>, AllocError>
    ensures { IfOk result (λ copy. copy ≡ sessions.now) }
{
    let mut copy = List::new(alloc);
    for session in sessions {
        copy.push(session_copy(alloc, session)?)?;
    }
    Ok(copy)
}

// A copy of a router's block.
fn router_copy(alloc: Global, router: &RouterConfig) -> Result<RouterConfig, AllocError>
    ensures { IfOk result (λ copy. copy ≡ router.now) }
{
    Ok(RouterConfig {
        name: router.name,
        asn: router.asn,
        id: router.id,
        own: router.own.copy(alloc)?,
        sessions: sessions_copy(alloc, router.sessions.as_slice())?,
    })
}

/// A copy of the blocks of routers.
pub fn routers_copy(
    alloc: Global,
    routers: &[RouterConfig],
) -> Result<List<RouterConfig>, AllocError>
    ensures { IfOk result (λ copy. copy ≡ routers.now) }
{
    let mut copy = List::new(alloc);
    for router in routers {
        copy.push(router_copy(alloc, router)?)?;
    }
    Ok(copy)
}
