//! Who gives a router the highest preference.
ghost use Rattle.std.specs.Prelude.{◌≡◌, None, IfSome, ℕ};
ghost use Rattle.config_base.specs.declared.route.Route.{Route};
ghost use Rattle.scenarios.specs.Situations.{IsSituation, given_in};
ghost use Rattle.scenarios.specs.Tests.{far_end as other_end};
ghost use Rattle.table_audit.specs.Situated.{IsTopGiverIn};
ghost use Rattle.table_audit.specs.Tops.{better, next_top};

use net_base::Loc;
use scenarios::Situation;

// The other end of a link of a location.
fn far_end(at: Loc, link: (Loc, Loc)) -> Option<Loc>
    ensures { result ≡ other_end at link }
{
    if link.0 == at {
        Some(link.1)
    } else if link.1 == at {
        Some(link.0)
    } else {
        None
    }
}

// The better one of who gives most so far and one more: the higher preference, and of equal ones the least location.
fn better_of(top: Option<(Loc, u32)>, from: Loc, pref: u32) -> Option<(Loc, u32)>
    ensures { result ≡ better top from pref }
{
    match top {
        None => Some((from, pref)),
        Some(best) => {
            if best.1 < pref || (best.1 == pref && from < best.0) {
                Some((from, pref))
            } else {
                Some(best)
            }
        }
    }
}

// What one link more makes of who gives most.
#[tactic(auto, unfolding(crate::specs::Tops::next_top))]
fn with_link(
    situation: &Situation<'_>,
    at: Loc,
    top: Option<(Loc, u32)>,
    link: (Loc, Loc),
) -> Option<(Loc, u32)>
    requires { IsSituation situation.now }
    ensures { result ≡ next_top (λ z. given_in situation.now z at) at top link }
{
    match far_end(at, link) {
        None => top,
        Some(from) => match situation.given(&from, at) {
            None => top,
            Some(imported) => better_of(top, from, imported.pref),
        },
    }
}

/// Who gives a router the highest preference, of several the least location, with that preference.
pub fn top_giver(situation: &Situation<'_>, at: Loc) -> Option<(Loc, u32)>
    requires { IsSituation situation.now }
    ensures none { result ≡ None → (z : ℕ) → given_in situation.now z at ≡ None }
    ensures some { IfSome result (λ t. (g : Route) × IsTopGiverIn situation.now at t.0 g × (g.pref ≡ t.1)) }
{
    let links = situation.net.links();
    let mut top = None;
    for i in 0..links.len() {
        top = with_link(situation, at, top, links[i]);
    }
    top
}
