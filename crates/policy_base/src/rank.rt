//! Ranks of paths.
ghost use Rattle.std.specs.Prelude.{◌≡◌, ◌+◌, ◌*◌, ◌<◌, ◌≤◌, ◌^◌, ◌-◌, min, length, map, option_map, option_and_then, if◌then◌else◌};
ghost use Rattle.std.specs.Option.{ForSome, option_or};
ghost use Rattle.policy_base.specs.declared.limits.TheConstants.{ALTERNATIVES};
ghost use Rattle.policy_base.specs.declared.call.Call.TheVariants.{Of};
ghost use Rattle.policy_base.specs.Policies.{ranking_of, Ranking};
ghost use Rattle.policy_base.specs.Meaning.{alternative_count, alternatives as tests, some_test, place_of, rank_of as rank};

use crate::meaning::{meets, meets_set};
use crate::ranked::Ranked;
use net_base::{Loc, LocSet, Net};
use policy_words::SetCall;

/// How many alternatives a ranked expression stands for; 18,446,744,073,709,551,615 where there are more.
pub fn alternatives(ranked: &Ranked) -> u64
    ensures { result ≡ min (alternative_count (ranking_of ranked.now)) (2 ^ 64 - 1) }
{
    match ranked {
        Ranked::Call(_) | Ranked::Or(_, _) | Ranked::Not(_) => 1,
        Ranked::Calls(_, sets) => sets.as_slice().len() as u64,
        Ranked::Prefer(a, b) => alternatives(a).saturating_add(alternatives(b)),
        Ranked::And(a, b) => alternatives(a).saturating_mul(alternatives(b)),
    }
}

// Whether the call of some of the sets is met.
fn meets_any(call: SetCall, sets: &[LocSet], path: &[Loc], net: &Net) -> bool
    ensures { result ≡ some_test (tests net.now (Ranking.calls (map (Of call) sets.now))) path.now }
{
    for set in sets {
        if meets_set(call, set, path, net) {
            return true;
        }
    }
    false
}

// Whether some alternative is met.
fn meets_some(ranked: &Ranked, path: &[Loc], net: &Net) -> bool
    ensures { result ≡ some_test (tests net.now (ranking_of ranked.now)) path.now }
{
    match ranked {
        Ranked::Call(call) => meets(call, path, net),
        Ranked::Calls(call, sets) => meets_any(*call, sets.as_slice(), path, net),
        Ranked::Prefer(a, b) => meets_some(a, path, net) || meets_some(b, path, net),
        Ranked::Or(a, b) => meets_some(a, path, net) || meets_some(b, path, net),
        Ranked::And(a, b) => meets_some(a, path, net) && meets_some(b, path, net),
        Ranked::Not(a) => !meets_some(a, path, net),
    }
}

// The place, from 0, of the first set whose call is met.
fn first_set(call: SetCall, sets: &[LocSet], path: &[Loc], net: &Net) -> Option<u32>
    requires { length sets.now ≤ ALTERNATIVES }
    ensures { result ≡ place_of (tests net.now (Ranking.calls (map (Of call) sets.now))) path.now 0 }
{
    for i in 0..sets.len() {
        if meets_set(call, &sets[i], path, net) {
            return Some(i as u32);
        }
    }
    None
}

// The place of an only alternative.
fn place_if(is_met: bool) -> Option<u32>
    ensures { result ≡ (if is_met then Some 0 else None) }
{
    if is_met { Some(0) } else { None }
}

// The first place in two lists one after the other, the first one of this length.
fn place_in_row(first: Option<u32>, before: u32, second: Option<u32>) -> Option<u32>
    requires before { before ≤ ALTERNATIVES }
    requires second { ForSome second (λ j. j < ALTERNATIVES) }
    ensures { result ≡ option_or first (option_map (λ j. before + j) second) }
{
    match first {
        Some(place) => Some(place),
        None => Some(before + second?),
    }
}

// The first place in the pairs of two lists, the second one of this length.
fn place_in_pairs(first: Option<u32>, second: Option<u32>, width: u32) -> Option<u32>
    requires width { width ≤ ALTERNATIVES }
    requires first { ForSome first (λ i. i < ALTERNATIVES) }
    requires second { ForSome second (λ j. j < ALTERNATIVES) }
    ensures { result ≡ option_and_then (λ i. option_map (λ j. i * width + j) second) first }
{
    let place = first?;
    Some(place * width + second?)
}

// The place, from 0, of the first alternative that is met.
fn first_met(ranked: &Ranked, path: &[Loc], net: &Net) -> Option<u32>
    requires { alternative_count (ranking_of ranked.now) ≤ ALTERNATIVES }
    ensures { result ≡ place_of (tests net.now (ranking_of ranked.now)) path.now 0 }
{
    match ranked {
        Ranked::Call(_) | Ranked::Or(_, _) | Ranked::Not(_) => {
            place_if(meets_some(ranked, path, net))
        }
        Ranked::Calls(call, sets) => first_set(*call, sets.as_slice(), path, net),
        Ranked::Prefer(a, b) => {
            let first = first_met(a, path, net);
            place_in_row(first, alternatives(a) as u32, first_met(b, path, net))
        }
        Ranked::And(a, b) => {
            if alternatives(a) == 0 || alternatives(b) == 0 {
                return None;
            }
            let first = first_met(a, path, net);
            let second = first_met(b, path, net);
            place_in_pairs(first, second, alternatives(b) as u32)
        }
    }
}

/// The rank of a path: the place, from 1, of the first alternative that it meets. None exactly where it
/// meets none.
pub fn rank_of(ranked: &Ranked, path: &[Loc], net: &Net) -> Option<u32>
    requires { alternative_count (ranking_of ranked.now) ≤ ALTERNATIVES }
    ensures { result ≡ rank net.now (ranking_of ranked.now) path.now }
{
    let place = first_met(ranked, path, net)?;
    Some(place + 1)
}
