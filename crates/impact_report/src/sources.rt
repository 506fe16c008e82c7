//! The claimed sources of a prefix, in order.
ghost use Rattle.std.specs.Prelude.{◌≡◌, ◌++◌, IfOk, OnOk, map};
ghost use Rattle.net_base.specs.Sets.{holds};
ghost use Rattle.outcome_report.specs.Claims.{sources_of as claimed_in};
ghost use Rattle.impact_report.specs.Sources.{router_sources, session_source, sources_in};

use net_base::{Loc, LocSet, Net};
use outcome_report::Claims;
use std::alloc::{AllocError, Global};

/// A claimed router, or its session to a peer.
#[derive(Clone, Copy, Debug, PartialEq, Eq)]
pub struct Source {
    /// The router.
    pub router: Loc,
    /// The peer of the session, or None where the router itself is the source.
    pub peer: Option<Loc>,
}

/// Adds the routers of a set, of so many, by location.
pub fn push_routers(
    sources: &mut Vec<Source>,
    count: u16,
    routers: &LocSet,
) -> Result<(), AllocError>
    ensures { OnOk result (sources.new.items ≡ sources.old.items ++ router_sources (holds routers.now) count) }
{
    for place in 0..count {
        let router = Loc::new(place);
        if routers.holds(router) {
            sources.push(Source { router, peer: None })?;
        }
    }
    Ok(())
}

/// Adds sessions, each of a router and a peer.
pub fn push_sessions(sources: &mut Vec<Source>, sessions: &[(Loc, Loc)]) -> Result<(), AllocError>
    ensures { OnOk result (sources.new.items ≡ sources.old.items ++ map session_source sessions.now) }
{
    for session in sessions {
        let (router, peer) = *session;
        let peer = Some(peer);
        sources.push(Source { router, peer })?;
    }
    Ok(())
}

/// The claimed routers by location, and then the claimed sessions by router and peer.
pub fn claimed_sources(
    alloc: Global,
    net: &Net,
    claims: &Claims<'_>,
) -> Result<Vec<Source>, AllocError>
    ensures { IfOk result (λ sources. sources.items ≡ sources_in net.now (claimed_in claims.now)) }
{
    let mut sources = Vec::new(alloc);
    push_routers(&mut sources, net.routers().len() as u16, &claims.routers)?;
    push_sessions(&mut sources, claims.sessions.as_slice())?;
    Ok(sources)
}
