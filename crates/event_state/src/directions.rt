//! The directions of a network's links, two for each, and what stands for them in lists with an entry each.
ghost use Rattle.std.specs.Prelude.{◌≡◌, ◌+◌, ◌<◌, None, Some, IfSome, IsTrue, false, length, option_map, slice_index_or};
ghost use Rattle.net_base.specs.Network.{IsNet, linked};
ghost use Rattle.event_state.specs.Directions.{at_direction, direction as direction_of};

use config_base::Route;
use net_base::{Loc, Net};

/// The number of the direction from one location to another, or None where they aren't linked: those from the lesser ends
/// of the links come first, in their order, and then those back.
pub fn direction(net: &Net, from: Loc, to: Loc) -> Option<usize>
    ensures number { result ≡ direction_of net.now from to }
    ensures within { IfSome result (λ d. d < length net.now.links + length net.now.links) }
    ensures rules { IsNet net.now }
{
    let count = net.links().len();
    let place = net.link_place(from, to)?;
    Some(if from < to { place } else { count + place })
}

/// The number of the direction from one end of a link to the other.
#[tactic(auto, using(crate::proofs::Ways::has_way))]
pub(crate) fn way(net: &Net, from: Loc, to: Loc) -> usize
    requires { IsTrue (linked net.now from to) }
    ensures number { direction_of net.now from to ≡ Some result }
    ensures within { result < length net.now.links + length net.now.links }
    ensures rules { IsNet net.now }
{
    direction(net, from, to).unwrap()
}

/// The mark at a place, which isn't set past the end.
pub(crate) fn mark(marks: &[bool], place: usize) -> bool
    ensures { result ≡ slice_index_or marks.now place false }
{
    place < marks.len() && marks[place]
}

/// The route at a place, if there is one.
pub(crate) fn route<'r>(routes: &'r [Option<Route>], place: usize) -> Option<&'r Route>
    ensures { option_map (λ h. h.now) result ≡ slice_index_or routes.now place None }
{
    if place < routes.len() {
        routes[place].as_ref()
    } else {
        None
    }
}

/// The mark of a direction, which isn't set where there is no link.
pub(crate) fn mark_at(net: &Net, marks: &[bool], from: Loc, to: Loc) -> bool
    ensures { result ≡ at_direction net.now marks.now false from to }
{
    match direction(net, from, to) {
        None => false,
        Some(place) => mark(marks, place),
    }
}

/// The route of a direction, if there is one.
pub(crate) fn route_at<'r>(
    net: &Net,
    routes: &'r [Option<Route>],
    from: Loc,
    to: Loc,
) -> Option<&'r Route>
    ensures { option_map (λ h. h.now) result ≡ at_direction net.now routes.now None from to }
{
    match direction(net, from, to) {
        None => None,
        Some(place) => route(routes, place),
    }
}
