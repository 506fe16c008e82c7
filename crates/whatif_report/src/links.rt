//! The links over which a multipath set can change.
ghost use Rattle.std.specs.Prelude.{◌≡◌, ◌∷◌, [], ℕ, IfOk, false, filter};
ghost use Rattle.net_base.specs.Sets.{holds};
ghost use Rattle.whatif_report.specs.Shifting.{Covers, over_link, touches};

use crate::cut::joined;
use impact_law::Cut;
use net_base::{List, Loc, LocSet, Net};
use std::alloc::{AllocError, Global};

/// Whether a link or an end of it is cut.
pub(crate) fn is_over(cut: &Cut, link: (Loc, Loc)) -> bool
    ensures { result ≡ over_link cut.now link.0 link.1 }
{
    match cut {
        Cut::Link(a, b) => joined(link.0, link.1, *a, *b),
        Cut::Router(router) => *router == link.0 || *router == link.1,
    }
}

// Whether a set can change over a link: an end of it holds another route, or it or an end of it is cut.
fn is_touched(cut: &Cut, moved: &LocSet, link: (Loc, Loc)) -> bool
    ensures { result ≡ touches cut.now moved.now link.0 link.1 }
{
    moved.holds(link.0) || moved.holds(link.1) || is_over(cut, link)
}

// The links of a network over which a set can change.
fn touched_among(
    alloc: Global,
    net: &Net,
    cut: &Cut,
    moved: &LocSet,
) -> Result<List<(Loc, Loc)>, AllocError>
    ensures { IfOk result (λ links. links ≡ filter (λ link. touches cut.now moved.now link.0 link.1) net.now.links) }
{
    let mut links = List::new(alloc);
    for link in net.links() {
        if is_touched(cut, moved, *link) {
            links.push(*link)?;
        }
    }
    Ok(links)
}

// A list of one link.
fn alone(alloc: Global, link: (Loc, Loc)) -> Result<List<(Loc, Loc)>, AllocError>
    ensures { IfOk result (λ links. links ≡ link ∷ []) }
{
    let mut links = List::new(alloc);
    links.push(link)?;
    Ok(links)
}

// The links over which a set can change where a cut moves nobody: that of the cut alone, or those of the router that is cut.
fn cut_links(
    alloc: Global,
    net: &Net,
    cut: &Cut,
    moved: &LocSet,
) -> Result<List<(Loc, Loc)>, AllocError>
    requires { (l : ℕ) → holds moved.now l ≡ false }
    ensures { IfOk result (Covers net.now cut.now moved.now) }
{
    match cut {
        Cut::Link(a, b) => alone(alloc, (*a, *b)),
        Cut::Router(_) => touched_among(alloc, net, cut, moved),
    }
}

/// Links among which each is over which a set can change where a cut moves some routers. Where it moves none and is that of a link, the others
/// aren't gone through.
pub(crate) fn touched_links(
    alloc: Global,
    net: &Net,
    cut: &Cut,
    moved: &LocSet,
) -> Result<List<(Loc, Loc)>, AllocError>
    ensures { IfOk result (Covers net.now cut.now moved.now) }
{
    if moved.is_empty() {
        return cut_links(alloc, net, cut, moved);
    }
    touched_among(alloc, net, cut, moved)
}
