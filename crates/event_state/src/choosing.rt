//! What a router chooses.
ghost use Rattle.std.specs.Prelude.{◌≡◌, ◌&&◌, ◌||◌, ◌==◌, ◌∷◌, [], IfOk, IsTrue, Some, None, option_map};
ghost use Rattle.net_base.specs.Locations.{neighbours};
ghost use Rattle.net_base.specs.Network.{id_of, is_location};
ghost use Rattle.config_base.specs.Lines.{own_route};
ghost use Rattle.event_base.specs.World.{choice as choice_by, offers};
ghost use Rattle.event_base.specs.Speaking.{first_of, is_before as comes_before, taken_by};
ghost use Rattle.event_state.specs.Gifts.{gift_of, leads_over};
ghost use Rattle.event_state.specs.States.{speakers, state};

use crate::world::World;
use config_base::{Config, Route, import_of, own_tag};
use net_base::{List, Loc, Net, Prefix, Tag};
use policy_base::is_origin;
use std::alloc::{AllocError, Global};

/// What a router makes of what a neighbour was heard to say: the neighbour's path, and what the import line gives it.
#[derive(Clone, Copy)]
pub(crate) struct Gift<'r> {
    at: Loc,
    from: Loc,
    path: &'r [Loc],
    tag: Tag,
    pref: u32,
}

// The BGP identifier of a location, 0 where the network has no such location.
fn identifier(net: &Net, at: Loc) -> u32
    ensures { result ≡ id_of net.now at }
{
    if net.is_router(at) || net.is_peer(at) {
        net.site(at).id
    } else {
        0
    }
}

// Whether one gift comes before another: by preference, then by the fewest AS numbers, then by the lowest identifier of
// who gives it (RFC 4271, 9.1.2.2).
fn is_before(net: &Net, one: &Gift<'_>, other: &Gift<'_>) -> bool
    ensures { result ≡ comes_before net.now (gift_of one.now) (gift_of other.now) }
{
    other.pref < one.pref
        || one.pref == other.pref
            && (one.path.len() < other.path.len()
                || one.path.len() == other.path.len()
                    && identifier(net, one.from) < identifier(net, other.from))
}

// Whether there is a gift that comes before the first one so far.
fn leads(net: &Net, gift: &Option<Gift<'_>>, best: &Option<Gift<'_>>) -> bool
    ensures { result ≡ leads_over net.now (option_map gift_of gift.now) (option_map gift_of best.now) }
{
    match (gift, best) {
        (None, _) => false,
        (Some(_), None) => true,
        (Some(gift), Some(best)) => is_before(net, gift, best),
    }
}

// An origin's own route.
fn own(
    alloc: Global,
    net: &Net,
    config: &Config,
    prefix: Prefix,
    at: Loc,
) -> Result<Route, AllocError>
    ensures { IfOk result (λ h. h ≡ own_route net.now config.now prefix at) }
{
    let mut path = List::new(alloc);
    path.push(at)?;
    Ok(Route {
        path,
        tag: own_tag(net, config, prefix, at),
        pref: 0,
    })
}

// A path with a location in front.
fn in_front(alloc: Global, at: Loc, rest: &[Loc]) -> Result<List<Loc>, AllocError>
    ensures { IfOk result (λ path. path ≡ at ∷ rest.now) }
{
    let mut path = Vec::with_capacity(alloc, rest.len() + 1)?;
    path.push(at)?;
    path.extend_from_slice(rest)?;
    Ok(List::from_vec(path))
}

// The route of a gift.
fn route(alloc: Global, gift: &Gift<'_>) -> Result<Route, AllocError>
    ensures { IfOk result (λ h. h ≡ (gift_of gift.now).1) }
{
    Ok(Route {
        path: in_front(alloc, gift.at, gift.path)?,
        tag: gift.tag,
        pref: gift.pref,
    })
}

impl<'a> World<'a> {
    // What a router's import lines make of what a neighbour was heard to say over a live session.
    fn gift(&self, at: Loc, from: Loc) -> Option<Gift<'_>>
        ensures { option_map gift_of result
            ≡ option_map (λ h. (from, h)) (taken_by self.now.net.now self.now.config.now self.now.prefix at from (offers (speakers self.now) (state self.now) at from)) }
    {
        let class = self.class?;
        let heard = self.offer(at, from)?;
        let path = heard.path.as_slice();
        let (tag, pref) = import_of(self.net, self.config, class, at, from, path, heard.tag)?;
        Some(Gift {
            at,
            from,
            path,
            tag,
            pref,
        })
    }

    // The first gift of a router's neighbours.
    fn best(&self, at: Loc) -> Option<Gift<'_>>
        requires { IsTrue (is_location self.now.net.now at) }
        ensures { option_map gift_of result
            ≡ first_of self.now.net.now (λ u. taken_by self.now.net.now self.now.config.now self.now.prefix at u (offers (speakers self.now) (state self.now) at u)) (neighbours self.now.net.now at) }
    {
        let mut best = None;
        for from in self.neighbours(at) {
            let gift = self.gift(at, *from);
            if leads(self.net, &gift, &best) {
                best = gift;
            }
        }
        best
    }

    // What a router that is up chooses.
    fn chosen(&self, alloc: Global, at: Loc) -> Result<Option<Route>, AllocError>
        requires { IsTrue (is_location self.now.net.now at) }
        ensures { IfOk result (λ h. h ≡ (speakers self.now).choose at (offers (speakers self.now) (state self.now) at)) }
    {
        if is_origin(self.net, self.policy, self.prefix, at) {
            return Ok(Some(own(alloc, self.net, self.config, self.prefix, at)?));
        }
        match self.best(at) {
            None => Ok(None),
            Some(gift) => Ok(Some(route(alloc, &gift)?)),
        }
    }

    /// What a location would now hold: where it is a router that is up, its own route if it is an origin, and otherwise the
    /// first of what its import lines make of what it has heard over live sessions, by preference, then by the fewest AS
    /// numbers, then by the lowest identifier of who gives it (RFC 4271, 9.1.2.2).
    pub fn choice(&self, alloc: Global, at: Loc) -> Result<Option<Route>, AllocError>
        ensures { IfOk result (λ h. h ≡ choice_by (speakers self.now) (state self.now) at) }
    {
        if self.is_running(at) {
            self.chosen(alloc, at)
        } else {
            Ok(None)
        }
    }
}
