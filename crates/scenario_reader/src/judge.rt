//! The rules of a scenario.
ghost use Rattle.std.specs.Prelude.{◌≡◌, ◌≢◌, ◌<◌, Err, IfOk, IfErr, All, map, not};
ghost use Rattle.std.specs.List.{position};
ghost use Rattle.std.specs.Result.{result_ok};
ghost use Rattle.net_base.specs.Gives.{GivesUnless};
ghost use Rattle.net_base.specs.declared.limits.TheConstants.{LOCATIONS};
ghost use Rattle.net_base.specs.Network.{PlainNet, linked};
ghost use Rattle.net_base.specs.PrefixText.{prefix_spelled};
ghost use Rattle.net_base.specs.Steps.{or_fault};
ghost use Rattle.scenario_reader.specs.Rules.{both_located, is_session, judged, links_known, located, sessions_known, set_of_all, turned as with_router_first};
ghost use Rattle.scenario_reader.specs.Shape.{each};
ghost use Rattle.location_names.specs.Names.{names_of, texts};
ghost use Rattle.scenario_reader.specs.Views.{raw_ends, raw_scenario, scenario_of, Locates};

use crate::fault::ScenarioFault;
use crate::parts::Field;
use crate::shape::{RawEnds, RawScenario};
use location_names::LocationNames;
use net_base::{List, Loc, LocSet, Net, Prefix, read_prefix};
use scenarios::Scenario;
use std::alloc::{AllocError, Global};

// The location of a name that a field has.
#[tactic(auto, unfolding(crate::specs::Rules::located))]
fn locate(names: &LocationNames<'_>, field: Field, name: &str) -> Result<Loc, ScenarioFault>
    ensures location { GivesUnless ScenarioFault.NoMemory (λ l. l) result (located names.now field name.now) }
    ensures within { IfOk result (λ l. l < LOCATIONS) }
{
    match names.location(name) {
        Some(at) => Ok(at),
        None => Err(ScenarioFault::Unknown(field)),
    }
}

// The locations of names.
fn locate_each(
    alloc: Global,
    names: &LocationNames<'_>,
    field: Field,
    raw: &[&str],
) -> Result<Vec<Loc>, ScenarioFault>
    ensures locations { GivesUnless ScenarioFault.NoMemory (λ v. v.items) result (each (located names.now field) (texts raw.now)) }
    ensures within { IfOk result (λ v. All (λ l. l < LOCATIONS) v.items) }
{
    let mut all = Vec::new(alloc);
    for name in raw {
        let at = locate(names, field, name)?;
        all.push(at)?;
    }
    Ok(all)
}

// The locations of a pair of names.
#[tactic(auto, unfolding(crate::specs::Rules::both_located))]
fn locate_both(
    names: &LocationNames<'_>,
    field: Field,
    ends: &RawEnds<'_>,
) -> Result<(Loc, Loc), ScenarioFault>
    ensures { GivesUnless ScenarioFault.NoMemory (λ p. p) result (both_located names.now field (raw_ends ends.now)) }
{
    let Some(a) = names.location(ends.from) else {
        return Err(ScenarioFault::Unknown(field));
    };
    let Some(b) = names.location(ends.to) else {
        return Err(ScenarioFault::Unknown(field));
    };
    Ok((a, b))
}

// The locations of pairs of names.
fn locate_pairs(
    alloc: Global,
    names: &LocationNames<'_>,
    field: Field,
    raw: &[RawEnds<'_>],
) -> Result<Vec<(Loc, Loc)>, ScenarioFault>
    ensures { GivesUnless ScenarioFault.NoMemory (λ v. v.items) result (each (both_located names.now field) (map raw_ends raw.now)) }
{
    let mut all = Vec::new(alloc);
    for ends in raw {
        let pair = locate_both(names, field, ends)?;
        all.push(pair)?;
    }
    Ok(all)
}

// The place of the first pair that is no link, from 0.
fn no_link(net: &Net, pairs: &[(Loc, Loc)]) -> Option<usize>
    ensures { result ≡ position (λ p. not (linked net.now p.0 p.1)) pairs.now }
{
    pairs.iter().position(|pair| !net.linked(pair.0, pair.1))
}

// Each pair is a link.
#[tactic(auto, unfolding(crate::specs::Rules::links_known))]
fn are_links(net: &Net, pairs: &[(Loc, Loc)]) -> Result<(), ScenarioFault>
    ensures { GivesUnless ScenarioFault.NoMemory (λ u. u) result (links_known net.now pairs.now) }
{
    match no_link(net, pairs) {
        Some(i) => Err(ScenarioFault::NoLink(i as u64 + 1)),
        None => Ok(()),
    }
}

// Whether a pair is a link of a router and a peer.
fn is_peer_link(net: &Net, pair: (Loc, Loc)) -> bool
    ensures { result ≡ is_session net.now pair }
{
    net.linked(pair.0, pair.1) && (net.is_peer(pair.0) || net.is_peer(pair.1))
}

// The place of the first pair that is no link of a router and a peer, from 0.
fn no_session(net: &Net, pairs: &[(Loc, Loc)]) -> Option<usize>
    ensures { result ≡ position (λ p. not (is_session net.now p)) pairs.now }
{
    pairs.iter().position(|pair| !is_peer_link(net, *pair))
}

// Each pair is a link of a router and a peer.
#[tactic(auto, unfolding(crate::specs::Rules::sessions_known))]
fn are_sessions(net: &Net, pairs: &[(Loc, Loc)]) -> Result<(), ScenarioFault>
    ensures { GivesUnless ScenarioFault.NoMemory (λ u. u) result (sessions_known net.now pairs.now) }
{
    match no_session(net, pairs) {
        Some(i) => Err(ScenarioFault::NotPeerLink(i as u64 + 1)),
        None => Ok(()),
    }
}

// The router of a session first.
fn turned(net: &Net, pair: (Loc, Loc)) -> (Loc, Loc)
    ensures { result ≡ with_router_first net.now pair }
{
    if net.is_peer(pair.0) {
        (pair.1, pair.0)
    } else {
        pair
    }
}

// Each session with its router first.
fn turned_each(
    alloc: Global,
    net: &Net,
    pairs: &[(Loc, Loc)],
) -> Result<List<(Loc, Loc)>, AllocError>
    ensures { IfOk result (λ all. all ≡ map (with_router_first net.now) pairs.now) }
{
    let mut all = List::new(alloc);
    for pair in pairs {
        all.push(turned(net, *pair))?;
    }
    Ok(all)
}

// The set of some locations.
fn set_of(locations: &[Loc]) -> LocSet
    requires { All (λ l. l < LOCATIONS) locations.now }
    ensures { result ≡ set_of_all locations.now }
{
    let mut set = LocSet::new();
    for at in locations {
        set = set.with(*at);
    }
    set
}

// The prefix of a text.
fn prefix_of(text: &str) -> Result<Prefix, ScenarioFault>
    ensures { GivesUnless ScenarioFault.NoMemory (λ p. p) result (or_fault ScenarioFault.BadPrefix (result_ok (prefix_spelled text.now))) }
{
    match read_prefix(text.as_bytes()) {
        Ok(prefix) => Ok(prefix),
        Err(_) => Err(ScenarioFault::BadPrefix),
    }
}

// The locations that a scenario names.
#[derive(Drop)]
struct Located {
    dead: Vec<Loc>,
    links: Vec<(Loc, Loc)>,
    pairs: Vec<(Loc, Loc)>,
}

// The locations of all names, which are found among those of a network.
#[tactic(auto, unfolding(crate::specs::Rules::judged))]
fn locate_all(
    alloc: Global,
    names: &LocationNames<'_>,
    raw: &RawScenario<'_>,
) -> Result<Located, ScenarioFault>
    ensures locations { IfOk result (λ all. Locates names.now (raw_scenario raw.now) all) }
    ensures within { IfOk result (λ all. All (λ l. l < LOCATIONS) all.dead.items) }
    ensures fault { IfErr result (λ e. e ≢ ScenarioFault.NoMemory → (net : PlainNet) → names.now ≡ names_of net → judged net (raw_scenario raw.now) ≡ Err e) }
{
    let dead = locate_each(alloc, names, Field::Dead, &raw.dead)?;
    let links = locate_pairs(alloc, names, Field::DeadLinks, &raw.dead_links)?;
    let pairs = locate_pairs(alloc, names, Field::Silent, &raw.silent)?;
    Ok(Located { dead, links, pairs })
}

// The locations of all names in a network.
fn find_all(alloc: Global, net: &Net, raw: &RawScenario<'_>) -> Result<Located, ScenarioFault>
    ensures locations { IfOk result (λ all. Locates (names_of net.now) (raw_scenario raw.now) all) }
    ensures within { IfOk result (λ all. All (λ l. l < LOCATIONS) all.dead.items) }
    ensures fault { IfErr result (λ e. e ≢ ScenarioFault.NoMemory → judged net.now (raw_scenario raw.now) ≡ Err e) }
{
    let names = LocationNames::of(alloc, net)?;
    locate_all(alloc, &names, raw)
}

// The prefix of a scenario whose pairs are as they should be.
#[tactic(auto, unfolding(crate::specs::Rules::judged))]
fn checked(net: &Net, raw: &RawScenario<'_>, all: &Located) -> Result<Prefix, ScenarioFault>
    requires { Locates (names_of net.now) (raw_scenario raw.now) all.now }
    ensures { GivesUnless ScenarioFault.NoMemory (scenario_of net.now all.now) result (judged net.now (raw_scenario raw.now)) }
{
    are_links(net, &all.links)?;
    are_sessions(net, &all.pairs)?;
    prefix_of(raw.prefix)
}

/// The scenario of what is said, or the least rule that it breaks.
pub fn judge(alloc: Global, net: &Net, raw: &RawScenario<'_>) -> Result<Scenario, ScenarioFault>
    ensures { GivesUnless ScenarioFault.NoMemory (λ scenario. scenario) result (judged net.now (raw_scenario raw.now)) }
{
    let all = find_all(alloc, net, raw)?;
    let prefix = checked(net, raw, &all)?;
    let silent = turned_each(alloc, net, &all.pairs)?;
    Ok(Scenario {
        prefix,
        dead: set_of(&all.dead),
        dead_links: List::from_vec(all.links),
        silent,
    })
}
