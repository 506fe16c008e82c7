//! What neighbours give each other in an outcome.
ghost use Rattle.std.specs.Prelude.{◌≡◌, ◌∷◌, ◌&&◌, not, Some, None, [], IsTrue, option_map, if◌then◌else◌};
ghost use Rattle.std.specs.Str.{bytes_eq};
ghost use Rattle.net_base.specs.Network.{is_peer};
ghost use Rattle.net_base.specs.Numbers.{no_tag};
ghost use Rattle.policy_base.specs.Policies.{policy_of};
ghost use Rattle.policy_base.specs.Governing.{is_origin as origin};
ghost use Rattle.outcome_base.specs.Outcomes.{is_silent, sent as sent_by};
ghost use Rattle.scenarios.specs.Scenarios.{failures_of};
ghost use Rattle.scenarios.specs.Situations.{IsSituation, given_in};
ghost use Rattle.scenarios.specs.Tests.{same_route, is_route};
ghost use Rattle.scenarios.specs.Readings.{plain_announcement, route_of};

use crate::situation::Situation;
use config_base::{NO_TAG, Route, export_of, import_of};
use net_base::{Loc, Tag};
use std::slice;

/// A path that a neighbour sends, which begins with it, and the tag that goes with it.
#[derive(Clone, Copy)]
pub(crate) struct Announcement<'s> {
    pub(crate) path: &'s [Loc],
    tag: Tag,
}

/// A route that a neighbour gives: the neighbour's path, and what the import line makes of it.
#[derive(Clone, Copy)]
pub struct Imported<'s> {
    /// The neighbour's path, which begins with the neighbour.
    pub path: &'s [Loc],
    /// The tag that the import line gives the route.
    pub tag: Tag,
    /// The local preference that the import line gives the route (RFC 4271, 5.1.5).
    pub pref: u32,
}

/// Whether a path is another one with a location in front.
pub(crate) fn is_in_front(path: &[Loc], first: Loc, rest: &[Loc]) -> bool
    ensures { result ≡ bytes_eq path.now (first ∷ rest.now) }
{
    match path {
        [] => false,
        [place, places @ ..] => *place == first && places == rest,
    }
}

/// Whether a route is what its holder makes of what a neighbour gives.
pub(crate) fn is_made(imported: &Imported<'_>, to: Loc, route: &Route) -> bool
    ensures { result ≡ same_route (route_of to imported.now) route.now }
{
    is_in_front(route.path.as_slice(), to, imported.path)
        && route.tag == imported.tag
        && route.pref == imported.pref
}

impl<'a> Situation<'a> {
    // What a peer announces where its session isn't silent: the path of itself alone, where it is an origin.
    fn announced<'s>(&self, peer: &'s Loc) -> Option<Announcement<'s>>
        requires { IsSituation self.now }
        ensures { option_map plain_announcement result
            ≡ (if origin self.now.net.now (policy_of self.now.policy.now) self.now.scenario.now.prefix peer.now then Some (peer.now ∷ [], no_tag) else None) }
    {
        if self.is_origin(*peer) {
            Some(Announcement {
                path: slice::from_ref(peer),
                tag: NO_TAG,
            })
        } else {
            None
        }
    }

    /// What a neighbour sends over a live session that isn't silent.
    pub(crate) fn sent<'s>(&'s self, from: &'s Loc, to: Loc) -> Option<Announcement<'s>>
        requires situation { IsSituation self.now }
        requires heard { IsTrue (not (is_peer self.now.net.now from.now && is_silent (failures_of self.now.scenario.now) to from.now)) }
        ensures { option_map plain_announcement result
            ≡ sent_by self.now.net.now (policy_of self.now.policy.now) self.now.config.now (failures_of self.now.scenario.now) self.now.scenario.now.prefix self.now.outcome.now.routes from.now to }
    {
        if self.net.is_peer(*from) {
            return self.announced(from);
        }
        let class = self.class?;
        let held = self.outcome.route_at(*from)?;
        let tag = export_of(self.net, self.config, class, *from, to, held)?;
        Some(Announcement {
            path: held.path.as_slice(),
            tag,
        })
    }

    /// The route that a neighbour gives a router, if it gives one.
    pub fn given<'s>(&'s self, from: &'s Loc, to: Loc) -> Option<Imported<'s>>
        requires { IsSituation self.now }
        ensures { option_map (route_of to) result ≡ given_in self.now from.now to }
    {
        if !self.survivors.carries(self.net, *from, to) {
            return None;
        }
        let sent = self.sent(from, to)?;
        let class = self.class?;
        let (tag, pref) = import_of(self.net, self.config, class, to, *from, sent.path, sent.tag)?;
        Some(Imported {
            path: sent.path,
            tag,
            pref,
        })
    }

    /// Whether a neighbour gives a router just this route.
    pub fn is_given(&self, from: Loc, to: Loc, route: &Route) -> bool
        requires { IsSituation self.now }
        ensures { result ≡ is_route (given_in self.now from to) route.now }
    {
        match self.given(&from, to) {
            None => false,
            Some(imported) => is_made(&imported, to, route),
        }
    }
}
