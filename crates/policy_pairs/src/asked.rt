//! The cases of a prefix in two policies.
ghost use Rattle.std.specs.Prelude.{◌≡◌, IfOk, OnOk, if◌then◌else◌, None, Some, is_some};
ghost use Rattle.std.specs.Option.{option_or};
ghost use Rattle.indexmap.specs.IndexMap.{get};
ghost use Rattle.net_base.specs.Prefixes.{PlainPrefix, same_prefix};
ghost use Rattle.policy_base.specs.Policies.{PlainPolicy, policy_of};
ghost use Rattle.policy_base.specs.Governing.{governing, originated_at};
ghost use Rattle.compare_base.specs.Cases.{case_for, pair_for};

use compare_base::{CasePair, PrefixCase};
use first_patterns::FirstPatterns;
use indexmap::IndexMap;
use input_output::NoMemory;
use net_base::{LocSet, Prefix};
use policy_base::{Origin, Policy};
use std::alloc::Global;

/// A policy, ready to be asked for the cases of prefixes.
#[derive(Drop)]
pub(crate) struct Told {
    pub(crate) firsts: FirstPatterns,
    pub(crate) origins: IndexMap<Prefix, LocSet>,
}

/// Two policies, ready to be asked.
#[derive(Drop)]
pub(crate) struct BothTold {
    pub(crate) old: Told,
    pub(crate) new: Told,
}

// Notes the origins of an item, unless an earlier one names its prefix.
fn note(origins: &mut IndexMap<Prefix, LocSet>, item: Origin) -> Result<(), NoMemory>
    ensures { OnOk result ((p : PlainPrefix) → get same_prefix origins.new p ≡ option_or (get same_prefix origins.old p) (if same_prefix item.prefix p then Some item.at else None)) }
{
    if !origins.contains_key(&item.prefix) {
        origins.insert(item.prefix, item.at)?;
    }
    Ok(())
}

// The origins of each prefix that an item names.
fn origins_of(alloc: Global, items: &[Origin]) -> Result<IndexMap<Prefix, LocSet>, NoMemory>
    ensures { IfOk result (λ origins. (p : PlainPrefix) → get same_prefix origins p ≡ originated_at items.now p) }
{
    let mut origins = IndexMap::new(alloc);
    for item in items {
        note(&mut origins, *item)?;
    }
    Ok(origins)
}

impl Told {
    ghost use Rattle.policy_pairs.specs.Groups.{Tells};

    /// A policy, put into tables.
    pub(crate) fn new(alloc: Global, policy: &Policy) -> Result<Told, NoMemory>
        ensures { IfOk result (λ told. Tells told (policy_of policy.now)) }
    {
        let origins = origins_of(alloc, policy.origins())?;
        let firsts = FirstPatterns::new(alloc, policy)?;
        Ok(Told { firsts, origins })
    }

    // The number of the statement that governs a prefix.
    fn statement(&self, prefix: Prefix) -> Option<u32>
        ensures { (policy : PlainPolicy) → Tells self.now policy → result ≡ governing policy prefix }
    {
        match self.firsts.first(prefix) {
            Some(first) => Some(first.statement),
            None => None,
        }
    }

    /// The case of a prefix.
    pub(crate) fn case(&self, prefix: Prefix) -> PrefixCase
        ensures { (policy : PlainPolicy) → Tells self.now policy → result ≡ case_for policy prefix }
    {
        PrefixCase {
            statement: self.statement(prefix),
            origins: self.origins.get(&prefix).copied(),
        }
    }

    /// Whether the policy originates a prefix.
    pub(crate) fn originates(&self, prefix: Prefix) -> bool
        ensures { (policy : PlainPolicy) → Tells self.now policy → result ≡ is_some (originated_at policy.origins prefix) }
    {
        self.origins.contains_key(&prefix)
    }
}

impl BothTold {
    ghost use Rattle.policy_pairs.specs.Groups.{TellBoth};

    /// Two policies, put into tables.
    pub(crate) fn new(alloc: Global, old: &Policy, new: &Policy) -> Result<BothTold, NoMemory>
        ensures { IfOk result (λ both. TellBoth both (policy_of old.now) (policy_of new.now)) }
    {
        let old = Told::new(alloc, old)?;
        let new = Told::new(alloc, new)?;
        Ok(BothTold { old, new })
    }

    /// The cases of a prefix.
    pub(crate) fn cases(&self, prefix: Prefix) -> CasePair
        ensures { (old new : PlainPolicy) → TellBoth self.now old new → result ≡ pair_for old new prefix }
    {
        CasePair {
            old: self.old.case(prefix),
            new: self.new.case(prefix),
        }
    }
}
