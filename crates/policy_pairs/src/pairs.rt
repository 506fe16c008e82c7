//! The pairs of two policies.
ghost use Rattle.std.specs.Prelude.{◌≡◌, ◌<◌, ◌≤◌, ◌++◌, ◌∷◌, [], IfOk, OnOk, List as Items, filter, is_none, length, map, if◌then◌else◌};
ghost use Rattle.std.specs.List.Sorted.{IsPermutation};
ghost use Rattle.net_base.specs.Prefixes.{PlainPrefix};
ghost use Rattle.policy_base.specs.Policies.{PlainPolicy, IsPolicyOf, policy_of};
ghost use Rattle.policy_base.specs.Governing.{originated_at};
ghost use Rattle.policy_pairs.specs.declared.groups.Group.{Group as PlainGroup};
ghost use Rattle.policy_pairs.specs.Groups.{AreInTurn, AreOriginatedPairs, AreOtherGroups, TellBoth, Tells, other_pair as other_pair_of, originated_pair as originated_pair_of, turn_for as turn_of_group};
ghost use Rattle.net_base.specs.Network.{PlainNet};
ghost use Rattle.policy_pairs.specs.Pairs.{ArePairs, common_pattern as common_pattern_of, originated_prefixes as originated_prefixes_of, prefixes_of as prefixes_of_items};

use crate::asked::{BothTold, Told};
use crate::common::common_pattern;
use crate::groups::{Group, grouped};
use compare_base::{CommonPattern, Pair, PairPrefixes};
use input_output::NoMemory;
use least_prefixes::least_prefixes;
use net_base::{List, Net, Prefix};
use policy_base::{Origin, Policy};
use std::alloc::Global;

// Puts the prefixes of items behind others.
fn push_prefixes(prefixes: &mut Vec<Prefix>, items: &[Origin]) -> Result<(), NoMemory>
    ensures { OnOk result (prefixes.new.items ≡ prefixes.old.items ++ prefixes_of_items items.now) }
{
    for item in items {
        prefixes.push(item.prefix)?;
    }
    Ok(())
}

// Puts a prefix behind others, unless it's skipped.
fn push_unless(prefixes: &mut Vec<Prefix>, skipped: bool, prefix: Prefix) -> Result<(), NoMemory>
    ensures { OnOk result (prefixes.new.items ≡ prefixes.old.items ++ (if skipped then [] else prefix ∷ [])) }
{
    if !skipped {
        prefixes.push(prefix)?;
    }
    Ok(())
}

// Puts the prefixes of items behind others, but for those that another policy originates.
fn push_other_prefixes(
    prefixes: &mut Vec<Prefix>,
    other: &Told,
    items: &[Origin],
) -> Result<(), NoMemory>
    ensures { (policy : PlainPolicy) → Tells other.now policy
        → OnOk result (prefixes.new.items ≡ prefixes.old.items ++ filter (λ (p : PlainPrefix). is_none (originated_at policy.origins p)) (prefixes_of_items items.now)) }
{
    for item in items {
        push_unless(prefixes, other.originates(item.prefix), item.prefix)?;
    }
    Ok(())
}

// The prefixes that one of the policies originates: those of the old one, then those of the new one alone.
fn originated_prefixes(
    alloc: Global,
    both: &BothTold,
    old: &Policy,
    new: &Policy,
) -> Result<Vec<Prefix>, NoMemory>
    requires { TellBoth both.now (policy_of old.now) (policy_of new.now) }
    ensures { IfOk result (λ prefixes. prefixes.items ≡ originated_prefixes_of (policy_of old.now) (policy_of new.now)) }
{
    let mut prefixes = Vec::new(alloc);
    push_prefixes(&mut prefixes, old.origins())?;
    push_other_prefixes(&mut prefixes, &both.old, new.origins())?;
    Ok(prefixes)
}

// The pair of a group of originated prefixes.
fn originated_pair(alloc: Global, group: &Group) -> Result<Pair, NoMemory>
    ensures { IfOk result (λ pair. pair ≡ originated_pair_of group.now) }
{
    let prefixes = group.prefixes.copy(alloc)?;
    Ok(Pair {
        cases: group.cases,
        prefixes: PairPrefixes::Originated(prefixes),
    })
}

// The pairs of originated prefixes.
fn originated_pairs(
    alloc: Global,
    both: &BothTold,
    old: &Policy,
    new: &Policy,
) -> Result<List<Pair>, NoMemory>
    requires { TellBoth both.now (policy_of old.now) (policy_of new.now) }
    ensures { IfOk result (AreOriginatedPairs (policy_of old.now) (policy_of new.now)) }
{
    let prefixes = originated_prefixes(alloc, both, old, new)?;
    let groups = grouped(alloc, both, &prefixes)?;
    let mut pairs = List::new(alloc);
    for group in &groups {
        pairs.push(originated_pair(alloc, group)?)?;
    }
    Ok(pairs)
}

// What the first patterns of prefixes contain, with these.
fn common_patterns(
    alloc: Global,
    both: &BothTold,
    prefixes: &[Prefix],
) -> Result<List<CommonPattern>, NoMemory>
    requires { (old new : PlainPolicy) × TellBoth both.now old new }
    ensures { (old new : PlainPolicy) → TellBoth both.now old new → IfOk result (λ patterns. patterns ≡ map (common_pattern_of old new) prefixes.now) }
{
    let mut patterns = List::new(alloc);
    for prefix in prefixes {
        patterns.push(common_pattern(both, *prefix))?;
    }
    Ok(patterns)
}

// The pair of a group of prefixes that neither policy originates.
fn other_pair(alloc: Global, both: &BothTold, group: &Group) -> Result<Pair, NoMemory>
    requires { (old new : PlainPolicy) × TellBoth both.now old new }
    ensures { (old new : PlainPolicy) → TellBoth both.now old new → IfOk result (λ pair. pair ≡ other_pair_of old new group.now) }
{
    let patterns = common_patterns(alloc, both, group.prefixes.as_slice())?;
    Ok(Pair {
        cases: group.cases,
        prefixes: PairPrefixes::Others(patterns),
    })
}

/// When the pair of a group has its turn: by the number of the statement in the old policy and then in the new one, and none last.
#[derive(Clone, Copy, PartialEq, Eq, PartialOrd, Ord)]
pub(crate) struct Turn {
    old: u32,
    new: u32,
}

// The turn of a group.
fn turn_for(group: &Group) -> Turn
    ensures { result ≡ turn_of_group group.now }
{
    Turn {
        old: group.cases.old.statement.unwrap_or(u32::MAX),
        new: group.cases.new.statement.unwrap_or(u32::MAX),
    }
}

// Puts groups in turn.
fn sort_groups(groups: &mut Vec<Group>)
    ensures moved { IsPermutation groups.old.items groups.new.items }
    ensures turns { AreInTurn groups.new.items }
{
    groups.sort_unstable_by_key(|group| turn_for(group));
}

// Puts the pairs of prefixes that neither policy originates behind the others.
fn add_other_pairs(
    alloc: Global,
    both: &BothTold,
    old: &Policy,
    new: &Policy,
    pairs: &mut List<Pair>,
) -> Result<(), NoMemory>
    requires told { TellBoth both.now (policy_of old.now) (policy_of new.now) }
    requires kept { (net : PlainNet) × IsPolicyOf net (policy_of old.now) × IsPolicyOf net (policy_of new.now) }
    ensures { OnOk result ((groups : Items PlainGroup) × AreOtherGroups (policy_of old.now) (policy_of new.now) groups
        × (pairs.new ≡ pairs.old ++ map (other_pair_of (policy_of old.now) (policy_of new.now)) groups)) }
{
    let least = least_prefixes(alloc, old, new)?;
    let mut groups = grouped(alloc, both, &least)?;
    sort_groups(&mut groups);
    for group in &groups {
        pairs.push(other_pair(alloc, both, group)?)?;
    }
    Ok(())
}

// Puts the pairs of prefixes that only peers can announce behind the others, where there are peers.
fn add_announced_pairs(
    alloc: Global,
    net: &Net,
    both: &BothTold,
    old: &Policy,
    new: &Policy,
    pairs: &mut List<Pair>,
) -> Result<(), NoMemory>
    requires told { TellBoth both.now (policy_of old.now) (policy_of new.now) }
    requires kept { (net : PlainNet) × IsPolicyOf net (policy_of old.now) × IsPolicyOf net (policy_of new.now) }
    ensures peers { 0 < length net.now.peers → OnOk result ((groups : Items PlainGroup) × AreOtherGroups (policy_of old.now) (policy_of new.now) groups
        × (pairs.new ≡ pairs.old ++ map (other_pair_of (policy_of old.now) (policy_of new.now)) groups)) }
    ensures no_peers { length net.now.peers ≤ 0 → OnOk result (pairs.new ≡ pairs.old) }
{
    if net.peers().is_empty() {
        return Ok(());
    }
    add_other_pairs(alloc, both, old, new, pairs)
}

/// The pairs of cases, one in the old policy and one in the new one, that prefixes of which something is said have, each once and with its
/// prefixes. First the pairs of originated prefixes in order of the first prefix of each, then the others by statement in the old policy
/// and then in the new one, none last.
pub fn policy_pairs(
    alloc: Global,
    net: &Net,
    old: &Policy,
    new: &Policy,
) -> Result<List<Pair>, NoMemory>
    requires old { IsPolicyOf net.now (policy_of old.now) }
    requires new { IsPolicyOf net.now (policy_of new.now) }
    ensures { IfOk result (ArePairs net.now (policy_of old.now) (policy_of new.now)) }
{
    let both = BothTold::new(alloc, old, new)?;
    let mut pairs = originated_pairs(alloc, &both, old, new)?;
    add_announced_pairs(alloc, net, &both, old, new, &mut pairs)?;
    Ok(pairs)
}
