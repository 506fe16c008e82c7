//! Prefixes that are grouped by their cases.
ghost use Rattle.std.specs.Prelude.{◌≡◌, ◌∷◌, ◌++◌, [], IfOk, List as Items, OnOk, map, if◌then◌else◌};
ghost use Rattle.std.specs.List.{list_any};
ghost use Rattle.net_base.specs.Prefixes.{PlainPrefix};
ghost use Rattle.policy_base.specs.Policies.{PlainPolicy};
ghost use Rattle.compare_base.specs.Cases.{pair_for};
ghost use Rattle.compare_base.specs.Same.{same_cases};
ghost use Rattle.policy_pairs.specs.Groups.{AreGroups, AreKinds, TellBoth, group_for};

use crate::asked::BothTold;
use compare_base::CasePair;
use indexmap::IndexSet;
use input_output::NoMemory;
use net_base::{List, Prefix};
use std::alloc::Global;

/// Prefixes with the same cases.
#[derive(Drop)]
pub(crate) struct Group {
    pub(crate) cases: CasePair,
    pub(crate) prefixes: List<Prefix>,
}

// A group of one prefix.
fn group_of(alloc: Global, cases: CasePair, prefix: Prefix) -> Result<Group, NoMemory>
    ensures { IfOk result (λ group. group ≡ record { cases = cases; prefixes = prefix ∷ [] }) }
{
    let mut prefixes = List::new(alloc);
    prefixes.push(prefix)?;
    Ok(Group { cases, prefixes })
}

// Puts a prefix into the group that has its cases, or into a new one. The cases of each group are kept in the order of the groups.
fn add_prefix(
    alloc: Global,
    kinds: &mut IndexSet<CasePair>,
    groups: &mut Vec<Group>,
    cases: CasePair,
    prefix: Prefix,
) -> Result<(), NoMemory>
    ensures kinds { OnOk result (kinds.new.keys ≡ (if list_any (same_cases cases) kinds.old.keys then kinds.old.keys else kinds.old.keys ++ cases ∷ [])) }
    ensures groups { (old new : PlainPolicy) (ps : Items PlainPrefix) → pair_for old new prefix ≡ cases → AreKinds old new ps kinds.old.keys
        → groups.old.items ≡ map (group_for old new ps) kinds.old.keys → OnOk result (groups.new.items ≡ map (group_for old new (ps ++ prefix ∷ [])) kinds.new.keys) }
{
    let (place, _) = kinds.insert_full(cases)?;
    if place < groups.len() {
        groups[place].prefixes.push(prefix)?;
    } else {
        groups.push(group_of(alloc, cases, prefix)?)?;
    }
    Ok(())
}

/// Prefixes by their cases in two policies, the groups in order of the first prefix of each.
pub(crate) fn grouped(
    alloc: Global,
    both: &BothTold,
    prefixes: &[Prefix],
) -> Result<Vec<Group>, NoMemory>
    ensures { (old new : PlainPolicy) → TellBoth both.now old new → IfOk result (λ groups. AreGroups old new prefixes.now groups.items) }
{
    let mut kinds = IndexSet::new(alloc);
    let mut groups = Vec::new(alloc);
    for prefix in prefixes {
        add_prefix(alloc, &mut kinds, &mut groups, both.cases(*prefix), *prefix)?;
    }
    Ok(groups)
}
