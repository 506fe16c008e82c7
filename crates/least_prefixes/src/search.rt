//! The least prefix of each class.
ghost use Rattle.std.specs.Prelude.{◌≡◌, ◌<◌, ◌≤◌, ◌-◌, ◌%◌, ◌^◌, ◌++◌, ◌∷◌, [], map, nat_lt, IfOk, OnOk, if◌then◌else◌};
ghost use Rattle.std.specs.List.{list_any};
ghost use Rattle.net_base.specs.Network.{PlainNet};
ghost use Rattle.net_base.specs.Prefixes.{IsPrefix};
ghost use Rattle.policy_base.specs.Policies.{PlainPolicy, IsPolicyOf, policy_of};
ghost use Rattle.least_prefixes.specs.Classes.{AreLeast};
ghost use Rattle.least_prefixes.specs.Least.{AreSeen, Knows, is_clean, joined, joined_at, joined_bound, joined_if, joined_over, same_class, with_class};

use crate::asked::{Asked, Class};
use crate::bounds::bounds;
use indexmap::IndexSet;
use input_output::NoMemory;
use net_base::Prefix;
use policy_base::Policy;
use std::alloc::Global;

// As many as there are addresses.
const ADDRESSES: u64 = 4_294_967_296;

// Puts a prefix to the others where its class is new.
fn put(
    seen: &mut IndexSet<Class>,
    least: &mut Vec<Prefix>,
    class: Class,
    prefix: Prefix,
) -> Result<(), NoMemory>
    ensures classes { OnOk result (seen.new.keys ≡ (if list_any (same_class class) seen.old.keys then seen.old.keys else seen.old.keys ++ class ∷ [])) }
    ensures prefixes { OnOk result (least.new.items ≡ with_class seen.old.keys least.old.items class prefix) }
{
    if !seen.contains(&class) {
        seen.insert(class)?;
        least.push(prefix)?;
    }
    Ok(())
}

// Puts a prefix to the others where it has a class that is new.
#[tactic(auto, using(crate::proofs::Seen::none_joins, crate::proofs::Seen::some_joins, crate::proofs::Seen::some_is_seen))]
fn consider(
    asked: &Asked,
    seen: &mut IndexSet<Class>,
    least: &mut Vec<Prefix>,
    prefix: Prefix,
) -> Result<(), NoMemory>
    ensures seen { (old new : PlainPolicy) → Knows asked.now old new → AreSeen old new seen.old.keys least.old.items → OnOk result (AreSeen old new seen.new.keys least.new.items) }
    ensures least { (old new : PlainPolicy) → Knows asked.now old new → AreSeen old new seen.old.keys least.old.items → OnOk result (least.new.items ≡ joined old new least.old.items prefix) }
{
    match asked.class(prefix) {
        None => Ok(()),
        Some(class) => put(seen, least, class, prefix),
    }
}

// Whether an address has no bit past the length.
fn clean(bits: u32, len: u8) -> bool
    requires { len ≤ 32 }
    ensures { result ≡ is_clean bits len }
{
    u64::from(bits) % (1u64 << (32 - len)) == 0
}

// Considers the prefix at an address of a length, where there is one.
fn consider_if_clean(
    asked: &Asked,
    seen: &mut IndexSet<Class>,
    least: &mut Vec<Prefix>,
    bits: u32,
    len: u8,
) -> Result<(), NoMemory>
    requires { len ≤ 32 }
    ensures seen { (old new : PlainPolicy) → Knows asked.now old new → AreSeen old new seen.old.keys least.old.items → OnOk result (AreSeen old new seen.new.keys least.new.items) }
    ensures least { (old new : PlainPolicy) → Knows asked.now old new → AreSeen old new seen.old.keys least.old.items → OnOk result (least.new.items ≡ joined_if old new (is_clean bits len) least.old.items (record { bits = bits; len = len })) }
{
    if !clean(bits, len) {
        return Ok(());
    }
    consider(asked, seen, least, Prefix::new(bits, len))
}

// Considers the prefixes at an address, the shortest first.
fn consider_at(
    asked: &Asked,
    seen: &mut IndexSet<Class>,
    least: &mut Vec<Prefix>,
    bits: u32,
) -> Result<(), NoMemory>
    ensures seen { (old new : PlainPolicy) → Knows asked.now old new → AreSeen old new seen.old.keys least.old.items → OnOk result (AreSeen old new seen.new.keys least.new.items) }
    ensures least { (old new : PlainPolicy) → Knows asked.now old new → AreSeen old new seen.old.keys least.old.items → OnOk result (least.new.items ≡ joined_at old new least.old.items bits 33) }
{
    for len in 0..33u8 {
        consider_if_clean(asked, seen, least, bits, len)?;
    }
    Ok(())
}

// Considers the prefixes at a bound, unless it is past the last address.
fn consider_bound(
    asked: &Asked,
    seen: &mut IndexSet<Class>,
    least: &mut Vec<Prefix>,
    bound: u64,
) -> Result<(), NoMemory>
    ensures seen { (old new : PlainPolicy) → Knows asked.now old new → AreSeen old new seen.old.keys least.old.items → OnOk result (AreSeen old new seen.new.keys least.new.items) }
    ensures least { (old new : PlainPolicy) → Knows asked.now old new → AreSeen old new seen.old.keys least.old.items → OnOk result (least.new.items ≡ joined_bound old new (nat_lt bound 4294967296) least.old.items bound) }
{
    if bound >= ADDRESSES {
        return Ok(());
    }
    consider_at(asked, seen, least, bound as u32)
}

// The least prefixes of the classes that prefixes at these numbers have.
fn least_at(alloc: Global, asked: &Asked, bounds: &[u64]) -> Result<Vec<Prefix>, NoMemory>
    ensures { (old new : PlainPolicy) → Knows asked.now old new → IfOk result (λ v. v.items ≡ joined_over old new [] bounds.now) }
{
    let mut seen = IndexSet::new(alloc);
    let mut least = Vec::new(alloc);
    for bound in bounds {
        consider_bound(asked, &mut seen, &mut least, *bound)?;
    }
    Ok(least)
}

/// For each pair of first patterns that prefixes have in two policies of a network, none or one in either but not none in both, the least
/// prefix that has it and that neither originates, by address and then by length. They are in this order.
pub fn least_prefixes(alloc: Global, old: &Policy, new: &Policy) -> Result<Vec<Prefix>, NoMemory>
    ensures { (net : PlainNet) → IsPolicyOf net (policy_of old.now) → IsPolicyOf net (policy_of new.now) → IfOk result (λ v. AreLeast (policy_of old.now) (policy_of new.now) v.items) }
{
    let asked = Asked::new(alloc, old, new)?;
    let bounds = bounds(alloc, old, new)?;
    let least = least_at(alloc, &asked, &bounds)?;
    Ok(least)
}
