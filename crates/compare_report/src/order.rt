//! The order in which originated prefixes are told.
ghost use Rattle.std.specs.Prelude.{◌≡◌, ◌++◌, IfOk, OnOk, filter, not};
ghost use Rattle.std.specs.List.{list_any};
ghost use Rattle.indexmap.specs.IndexSet.{contains};
ghost use Rattle.net_base.specs.Prefixes.{PlainPrefix, same_prefix};
ghost use Rattle.policy_base.specs.Policies.{policy_of};
ghost use Rattle.compare_report.specs.Groups.{originated_prefixes, prefixes_of as prefixes_in};

use crate::groups::add_prefixes;
use indexmap::IndexSet;
use input_output::NoMemory;
use net_base::Prefix;
use policy_base::{Origin, Policy};
use std::alloc::Global;

// Adds the prefixes of these items.
fn push_all(list: &mut Vec<Prefix>, origins: &[Origin]) -> Result<(), NoMemory>
    ensures { OnOk result (list.new.items ≡ list.old.items ++ prefixes_in origins.now) }
{
    for origin in origins {
        list.push(origin.prefix)?;
    }
    Ok(())
}

// Whether the set of these prefixes has this one.
fn is_there(before: &[Prefix], set: &IndexSet<Prefix>, prefix: Prefix) -> bool
    requires { (p : PlainPrefix) → contains same_prefix set.now p ≡ list_any (λ q. same_prefix q p) before.now }
    ensures { result ≡ list_any (λ q. same_prefix q prefix) before.now }
{
    set.contains(&prefix)
}

// Those of some prefixes that aren't among these, of which this is the set.
fn others(
    alloc: Global,
    before: &[Prefix],
    set: &IndexSet<Prefix>,
    prefixes: &[Prefix],
) -> Result<Vec<Prefix>, NoMemory>
    requires { (p : PlainPrefix) → contains same_prefix set.now p ≡ list_any (λ q. same_prefix q p) before.now }
    ensures { IfOk result (λ list. list.items ≡ filter (λ p. not (list_any (λ q. same_prefix q p) before.now)) prefixes.now) }
{
    let mut list = Vec::new(alloc);
    for prefix in prefixes {
        if !is_there(before, set, *prefix) {
            list.push(*prefix)?;
        }
    }
    Ok(list)
}

// Adds prefixes.
fn push_more(list: &mut Vec<Prefix>, prefixes: &[Prefix]) -> Result<(), NoMemory>
    ensures { OnOk result (list.new.items ≡ list.old.items ++ prefixes.now) }
{
    list.extend_from_slice(prefixes)?;
    Ok(())
}

// The prefixes that the new policy originates, and not the old one, which originates these.
fn new_alone(alloc: Global, before: &[Prefix], new: &Policy) -> Result<Vec<Prefix>, NoMemory>
    ensures { IfOk result (λ list. list.items ≡ filter (λ p. not (list_any (λ q. same_prefix q p) before.now)) (prefixes_in (policy_of new.now).origins)) }
{
    let mut prefixes = Vec::new(alloc);
    push_all(&mut prefixes, new.origins())?;
    let mut set = IndexSet::new(alloc);
    add_prefixes(&mut set, before)?;
    others(alloc, before, &set, &prefixes)
}

/// The originated prefixes in order: those of the old policy, and then those of the new one alone.
pub fn originated(alloc: Global, old: &Policy, new: &Policy) -> Result<Vec<Prefix>, NoMemory>
    ensures { IfOk result (λ list. list.items ≡ originated_prefixes (policy_of old.now) (policy_of new.now)) }
{
    let mut list = Vec::new(alloc);
    push_all(&mut list, old.origins())?;
    let more = new_alone(alloc, &list, new)?;
    push_more(&mut list, &more)?;
    Ok(list)
}
