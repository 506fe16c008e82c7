//! Scenarios of failures.
ghost use Rattle.std.specs.Prelude.{◌≡◌, ◌&&◌};
ghost use Rattle.std.specs.List.{list_any};
ghost use Rattle.net_base.specs.Network.{is_peer};
ghost use Rattle.policy_base.specs.Meaning.{some_step};
ghost use Rattle.outcome_base.specs.Outcomes.{is_dead as dead, is_dead_link as dead_link, is_silent as silent, passes_live as all_live, ends_heard as heard, survives as surviving};
ghost use Rattle.scenarios.specs.Scenarios.{failures_of};

use net_base::{List, Loc, LocSet, Net, Prefix};

/// A prefix, and what fails: dead locations, dead links with either end first, and sessions of peers that
/// are silent, the router first. A silent session keeps a peer from announcing, not from hearing.
#[derive(Drop)]
pub struct Scenario {
    /// The prefix of whose routes is asked.
    pub prefix: Prefix,
    /// The locations that are dead.
    pub dead: LocSet,
    /// The links that are dead, with either end first. A link may be listed twice.
    pub dead_links: List<(Loc, Loc)>,
    /// The sessions in which a peer is silent, the router first. A session may be listed twice.
    pub silent: List<(Loc, Loc)>,
}

impl Scenario {
    /// Whether a location is dead.
    pub fn is_dead(&self, at: Loc) -> bool
        ensures { result ≡ dead (failures_of self.now) at }
    {
        self.dead.holds(at)
    }

    /// Whether the link of two locations is dead.
    pub fn is_dead_link(&self, a: Loc, b: Loc) -> bool
        ensures { result ≡ dead_link (failures_of self.now) a b }
    {
        self.dead_links.as_slice().iter().any(|link| (link.0 == a && link.1 == b)
            || (link.0 == b && link.1 == a))
    }

    /// Whether the session of a router and a peer is silent.
    pub fn is_silent(&self, router: Loc, peer: Loc) -> bool
        ensures { result ≡ silent (failures_of self.now) router peer }
    {
        self.silent
            .as_slice()
            .iter()
            .any(|session| session.0 == router && session.1 == peer)
    }
}

// Whether a location of the path is dead.
fn has_dead_location(scenario: &Scenario, path: &[Loc]) -> bool
    ensures { result ≡ list_any (dead (failures_of scenario.now)) path.now }
{
    path.iter().any(|l| scenario.is_dead(*l))
}

// Whether a link of the path is dead.
fn has_dead_link(scenario: &Scenario, path: &[Loc]) -> bool
    ensures { result ≡ some_step (dead_link (failures_of scenario.now)) path.now }
{
    for i in 1..path.len() {
        if scenario.is_dead_link(path[i - 1], path[i]) {
            return true;
        }
    }
    false
}

// Whether no location and no link of the path is dead.
fn passes_live(scenario: &Scenario, path: &[Loc]) -> bool
    ensures { result ≡ all_live (failures_of scenario.now) path.now }
{
    if has_dead_location(scenario, path) {
        return false;
    }
    !has_dead_link(scenario, path)
}

// Whether a session at the end of a path, the router first, is a silent one of a peer.
fn is_unheard(net: &Net, scenario: &Scenario, router: Loc, last: Loc) -> bool
    ensures { result ≡ (is_peer net.now last && silent (failures_of scenario.now) router last) }
{
    net.is_peer(last) && scenario.is_silent(router, last)
}

// Whether the path doesn't end with a silent session of a peer.
fn ends_heard(net: &Net, scenario: &Scenario, path: &[Loc]) -> bool
    ensures { result ≡ heard net.now (failures_of scenario.now) path.now }
{
    if path.len() < 2 {
        return true;
    }
    let router = path[path.len() - 2];
    let last = path[path.len() - 1];
    !is_unheard(net, scenario, router, last)
}

/// Whether a path survives: no location and no link of it is dead and, where its last place is a peer, its
/// last session isn't silent.
pub fn survives(net: &Net, scenario: &Scenario, path: &[Loc]) -> bool
    ensures { result ≡ surviving net.now (failures_of scenario.now) path.now }
{
    passes_live(scenario, path) && ends_heard(net, scenario, path)
}
