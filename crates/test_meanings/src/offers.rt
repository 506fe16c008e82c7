//! What is given, offered and left alive.
ghost use Rattle.scenarios.specs.Situations.{IsSituation};

use crate::setting::Setting;
use crate::values::{Held, Range, route, scenario};
use crate::wrong::Wrong;
use input_output::NoMemory;
use net_base::{Loc, Net};
use scenarios::{Outcome, Scenario, Situation, Survivors, survives};
use std::alloc::Global;
use test_networks::path;

// Whether a path is another one with a location in front, where there is another one.
fn is_behind(path: &[Loc], first: Loc, other: Option<&[Loc]>) -> bool {
    match (path, other) {
        ([place, places @ ..], Some(other)) => *place == first && places == other,
        _ => false,
    }
}

// A router, a peer and a path, and whether it is offered.
type Offer = (u16, u16, &'static [u16], bool);

fn is_offer_right(alloc: Global, situation: &Situation<'_>, row: &Offer) -> Result<bool, NoMemory>
    requires { IsSituation situation.now }
{
    let path = path(alloc, row.2)?;
    let peer = Loc::new(row.1);
    let offered = situation.offered(Loc::new(row.0), peer);
    Ok(is_behind(&path, peer, offered) == row.3)
}

// The first of these offers that is wrong.
fn wrong_offer(
    alloc: Global,
    setting: Setting<'_>,
    scenario: &Scenario,
    outcome: &Outcome,
    offers: &[Offer],
) -> Result<Option<Wrong>, NoMemory> {
    let (net, policy, config) = (setting.net, setting.policy, setting.config);
    let situation = Situation::new(net, policy, config, scenario, outcome);
    for i in 0..offers.len() {
        if !is_offer_right(alloc, &situation, &offers[i])? {
            return Ok(Some(("an offer", i)));
        }
    }
    Ok(None)
}

// The first of these offers that is wrong where these locations are dead and these sessions silent.
fn wrong_offer_after(
    alloc: Global,
    setting: Setting<'_>,
    outcome: &Outcome,
    dead: Range,
    silent: &[(u16, u16)],
    offers: &[Offer],
) -> Result<Option<Wrong>, NoMemory> {
    let scenario = scenario(alloc, setting.scenario.prefix, dead, &[], silent)?;
    wrong_offer(alloc, setting, &scenario, outcome, offers)
}

const ENTRIES: [Offer; 5] = [
    (0, 2, &[2, 0, 1], true),
    (0, 2, &[0, 1], false),
    (0, 2, &[2, 1], false),
    (1, 3, &[3, 1], false),
    (0, 3, &[3, 0, 1], false),
];

// Where the peer is dead.
const DEAD_ENTRY: [Offer; 1] = [(0, 2, &[2, 0, 1], false)];

/// The first offer that is wrong to a listener that is entered: it is offered its path, also where its session is silent, and
/// not where it is dead.
pub(crate) fn wrong_entry(
    alloc: Global,
    setting: Setting<'_>,
    outcome: &Outcome,
) -> Result<Option<Wrong>, NoMemory> {
    let alive = wrong_offer_after(alloc, setting, outcome, (0, 0), &[], &ENTRIES)?;
    let silent = wrong_offer_after(alloc, setting, outcome, (0, 0), &[(0, 2)], &ENTRIES)?;
    let dead = wrong_offer_after(alloc, setting, outcome, (2, 3), &[], &DEAD_ENTRY)?;
    Ok(alive.or(silent).or(dead))
}

const LOOPS: [Offer; 3] = [
    (0, 2, &[2, 0, 2], false),
    (0, 2, &[0, 2], false),
    (1, 3, &[3, 1, 0, 2], true),
];

/// The first of these offers that is wrong: a peer on the path is offered nothing.
pub(crate) fn wrong_loop(
    alloc: Global,
    setting: Setting<'_>,
    outcome: &Outcome,
) -> Result<Option<Wrong>, NoMemory> {
    wrong_offer_after(alloc, setting, outcome, (0, 0), &[], &LOOPS)
}

// A neighbour, a router and a route, and whether the one gives it to the other.
type Gift = (u16, u16, Held, bool);

const GIFTS: [Gift; 7] = [
    (0, 1, Some((&[1, 0, 2], 2, 101)), true),
    (0, 1, Some((&[1, 0, 2], 1, 101)), false),
    (0, 1, Some((&[1, 0, 2], 2, 100)), false),
    (0, 1, Some((&[1, 2], 2, 101)), false),
    (1, 0, Some((&[0, 1, 0, 2], 1, 101)), false),
    (2, 0, Some((&[0, 2], 1, 101)), true),
    (3, 1, Some((&[1, 3], 1, 100)), true),
];

fn is_gift_right(alloc: Global, situation: &Situation<'_>, row: &Gift) -> Result<bool, NoMemory>
    requires { IsSituation situation.now }
{
    Ok(match route(alloc, row.1, row.2)? {
        Some(route) => situation.is_given(Loc::new(row.0), Loc::new(row.1), &route) == row.3,
        None => false,
    })
}

fn wrong_gift(alloc: Global, situation: &Situation<'_>) -> Result<Option<Wrong>, NoMemory>
    requires { IsSituation situation.now }
{
    for i in 0..GIFTS.len() {
        if !is_gift_right(alloc, situation, &GIFTS[i])? {
            return Ok(Some(("a gift", i)));
        }
    }
    Ok(None)
}

/// The first route that is given wrongly.
pub(crate) fn wrong_given(
    alloc: Global,
    setting: Setting<'_>,
    outcome: &Outcome,
) -> Result<Option<Wrong>, NoMemory> {
    let (net, policy, config) = (setting.net, setting.policy, setting.config);
    let situation = Situation::new(net, policy, config, setting.scenario, outcome);
    wrong_gift(alloc, &situation)
}

// A path, and whether it survives where the link R1-R2 is dead and the session R1-P1 silent, and where P2 is dead.
type Survivor = (&'static [u16], bool, bool);

const SURVIVORS: [Survivor; 7] = [
    (&[], true, true),
    (&[3], true, false),
    (&[0, 2], false, true),
    (&[2, 0], true, true),
    (&[1, 3], true, false),
    (&[0, 1], false, true),
    (&[1, 0, 2], false, true),
];

fn is_survivor_right(
    alloc: Global,
    net: &Net,
    cut: &Scenario,
    death: &Scenario,
    row: &Survivor,
) -> Result<bool, NoMemory> {
    let path = path(alloc, row.0)?;
    Ok(survives(net, cut, &path) == row.1 && survives(net, death, &path) == row.2)
}

fn wrong_survivor(
    alloc: Global,
    net: &Net,
    cut: &Scenario,
    death: &Scenario,
) -> Result<Option<Wrong>, NoMemory> {
    for i in 0..SURVIVORS.len() {
        if !is_survivor_right(alloc, net, cut, death, &SURVIVORS[i])? {
            return Ok(Some(("a path that survives", i)));
        }
    }
    Ok(None)
}

// Two locations, and whether both and their link live in the same two scenarios.
type Live = (u16, u16, bool, bool);

const LIVE: [Live; 4] = [
    (0, 1, false, true),
    (2, 0, true, true),
    (0, 3, false, false),
    (1, 3, true, false),
];

fn is_live_right(net: &Net, cut: &Survivors, death: &Survivors, row: &Live) -> bool {
    let (a, b) = (Loc::new(row.0), Loc::new(row.1));
    cut.is_live(net, a, b) == row.2 && death.is_live(net, a, b) == row.3
}

fn wrong_live(net: &Net, cut: &Scenario, death: &Scenario) -> Option<Wrong> {
    let (cut, death) = (Survivors::new(net, cut), Survivors::new(net, death));
    for i in 0..LIVE.len() {
        if !is_live_right(net, &cut, &death, &LIVE[i]) {
            return Some(("a link that lives", i));
        }
    }
    None
}

// The first path or link of which it is told wrongly whether it is left after one of these failures.
fn wrong_after(
    alloc: Global,
    net: &Net,
    cut: &Scenario,
    death: &Scenario,
) -> Result<Option<Wrong>, NoMemory> {
    let path = wrong_survivor(alloc, net, cut, death)?;
    Ok(path.or(wrong_live(net, cut, death)))
}

// The same where P2 isn't dead yet.
fn wrong_after_cut(
    alloc: Global,
    setting: Setting<'_>,
    cut: &Scenario,
) -> Result<Option<Wrong>, NoMemory> {
    let death = scenario(alloc, setting.scenario.prefix, (3, 4), &[], &[])?;
    wrong_after(alloc, setting.net, cut, &death)
}

/// The first path or link of which it is told wrongly whether it is left after failures.
pub(crate) fn wrong_left(alloc: Global, setting: Setting<'_>) -> Result<Option<Wrong>, NoMemory> {
    let cut = scenario(alloc, setting.scenario.prefix, (0, 0), &[(1, 0)], &[(0, 2)])?;
    wrong_after_cut(alloc, setting, &cut)
}
