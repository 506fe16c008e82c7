//! A cut besides what has failed.
ghost use Rattle.std.specs.Prelude.{◌≡◌, ◌<◌, ◌++◌, ◌∷◌, ◌||◌, ◌==◌, [], ℕ, IfOk};
ghost use Rattle.std.specs.List.{list_any};
ghost use Rattle.net_base.specs.Network.{joins};
ghost use Rattle.net_base.specs.Sets.{holds};
ghost use Rattle.net_base.specs.declared.limits.TheConstants.{LOCATIONS};
ghost use Rattle.policy_base.specs.Meaning.{some_step};
ghost use Rattle.drain_report.specs.Uses.{goes_over as is_over};
ghost use Rattle.whatif_report.specs.Cutting.{IsCutOf, IsWithCut};

use impact_law::Cut;
use net_base::{Loc, Net, known_net};
use scenarios::Scenario;
use std::alloc::{AllocError, Global};

// A scenario where a link is dead, too.
fn with_dead_link(
    alloc: Global,
    scenario: &Scenario,
    link: (Loc, Loc),
) -> Result<Scenario, AllocError>
    ensures { IfOk result (λ s. s ≡ record scenario.now { dead_links = scenario.now.dead_links ++ link ∷ [] }) }
{
    let mut dead_links = scenario.dead_links.copy(alloc)?;
    dead_links.push(link)?;
    Ok(Scenario {
        prefix: scenario.prefix,
        dead: scenario.dead,
        dead_links,
        silent: scenario.silent.copy(alloc)?,
    })
}

// A scenario where a location is dead, too.
fn with_dead(alloc: Global, scenario: &Scenario, at: Loc) -> Result<Scenario, AllocError>
    requires { at < LOCATIONS }
    ensures dead { IfOk result (λ s. (l : ℕ) → holds s.dead l ≡ (holds scenario.now.dead l || l == at)) }
    ensures links { IfOk result (λ s. s.dead_links ≡ scenario.now.dead_links) }
    ensures silent { IfOk result (λ s. s.silent ≡ scenario.now.silent) }
    ensures prefix { IfOk result (λ s. s.prefix ≡ scenario.now.prefix) }
{
    Ok(Scenario {
        prefix: scenario.prefix,
        dead: scenario.dead.with(at),
        dead_links: scenario.dead_links.copy(alloc)?,
        silent: scenario.silent.copy(alloc)?,
    })
}

/// A scenario where a cut comes besides.
pub(crate) fn with_cut(
    alloc: Global,
    net: &Net,
    scenario: &Scenario,
    cut: &Cut,
) -> Result<Scenario, AllocError>
    requires { IsCutOf net.now cut.now }
    ensures { IfOk result (IsWithCut scenario.now cut.now) }
{
    known_net(net);
    match cut {
        Cut::Link(a, b) => with_dead_link(alloc, scenario, (*a, *b)),
        Cut::Router(router) => {
            let scenario = with_dead(alloc, scenario, *router)?;
            Ok(scenario)
        }
    }
}

/// Whether two locations are the ends of a link, either first.
pub(crate) fn joined(a: Loc, b: Loc, one: Loc, other: Loc) -> bool
    ensures { result ≡ joins a b (one, other) }
{
    (a == one && b == other) || (a == other && b == one)
}

// Whether a path goes over the link of two locations.
fn goes_over_link(path: &[Loc], one: Loc, other: Loc) -> bool
    ensures { result ≡ some_step (λ a b. joins a b (one, other)) path.now }
{
    for i in 1..path.len() {
        if joined(path[i - 1], path[i], one, other) {
            return true;
        }
    }
    false
}

// Whether a path goes over a location.
fn goes_over_location(path: &[Loc], at: Loc) -> bool
    ensures { result ≡ list_any (λ l. at == l) path.now }
{
    path.iter().any(|place| at == *place)
}

/// Whether a path goes over a cut.
pub(crate) fn goes_over(cut: &Cut, path: &[Loc]) -> bool
    ensures { result ≡ is_over cut.now path.now }
{
    match cut {
        Cut::Link(a, b) => goes_over_link(path, *a, *b),
        Cut::Router(router) => goes_over_location(path, *router),
    }
}
