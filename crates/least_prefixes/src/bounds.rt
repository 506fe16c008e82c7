//! Addresses at which the patterns that contain prefixes of one length can change.
ghost use Rattle.std.specs.Prelude.{◌≡◌, ◌||◌, ◌==◌, ℕ, IfOk, OnOk};
ghost use Rattle.std.specs.Ordering.{nat_cmp};
ghost use Rattle.std.specs.List.{list_any};
ghost use Rattle.std.specs.List.Sorted.{IsStrictlySortedBy};
ghost use Rattle.policy_base.specs.Policies.{policy_of};
ghost use Rattle.least_prefixes.specs.Bounds.{bounds_origin, bounds_pattern, bounds_prefix, has, is_bound};

use input_output::NoMemory;
use net_base::{Pattern, Prefix};
use policy_base::{Origin, Policy, Statement};
use std::alloc::Global;

// Where a prefix begins, and where the next one of its length does.
fn push_prefix(bounds: &mut Vec<u64>, prefix: Prefix) -> Result<(), NoMemory>
    ensures { OnOk result ((x : ℕ) → has bounds.new.items x ≡ (has bounds.old.items x || bounds_prefix prefix x)) }
{
    let first = u64::from(prefix.bits());
    bounds.push(first)?;
    bounds.push(first + (1u64 << (32 - prefix.len())))?;
    Ok(())
}

// The bounds of the bases of patterns.
fn push_patterns(bounds: &mut Vec<u64>, patterns: &[Pattern]) -> Result<(), NoMemory>
    ensures { OnOk result ((x : ℕ) → has bounds.new.items x ≡ (has bounds.old.items x || bounds_pattern patterns.now x)) }
{
    for pattern in patterns {
        push_prefix(bounds, pattern.base())?;
    }
    Ok(())
}

// The bounds of originated prefixes.
fn push_origins(bounds: &mut Vec<u64>, origins: &[Origin]) -> Result<(), NoMemory>
    ensures { OnOk result ((x : ℕ) → has bounds.new.items x ≡ (has bounds.old.items x || bounds_origin origins.now x)) }
{
    for origin in origins {
        push_prefix(bounds, origin.prefix)?;
    }
    Ok(())
}

// The bounds of the patterns of statements.
fn push_statements(bounds: &mut Vec<u64>, statements: &[Statement]) -> Result<(), NoMemory>
    ensures { OnOk result ((x : ℕ) → has bounds.new.items x ≡ (has bounds.old.items x || list_any (λ s. bounds_pattern s.patterns x) statements.now)) }
{
    for statement in statements {
        push_patterns(bounds, statement.patterns.as_slice())?;
    }
    Ok(())
}

// The bounds of a policy.
fn push_policy(bounds: &mut Vec<u64>, policy: &Policy) -> Result<(), NoMemory>
    ensures { OnOk result ((x : ℕ) → has bounds.new.items x ≡ (has bounds.old.items x || is_bound (policy_of policy.now) x)) }
{
    push_origins(bounds, policy.origins())?;
    push_statements(bounds, policy.statements())?;
    Ok(())
}

/// The first address, and the bounds of both policies, in order and each once. One may be past the last address.
pub(crate) fn bounds(alloc: Global, old: &Policy, new: &Policy) -> Result<Vec<u64>, NoMemory>
    ensures order { IfOk result (λ v. IsStrictlySortedBy nat_cmp v.items) }
    ensures same { IfOk result (λ v. (x : ℕ) → has v.items x ≡ ((0 == x || is_bound (policy_of old.now) x) || is_bound (policy_of new.now) x)) }
{
    let mut bounds = Vec::new(alloc);
    bounds.push(0)?;
    push_policy(&mut bounds, old)?;
    push_policy(&mut bounds, new)?;
    bounds.sort_unstable();
    bounds.dedup();
    Ok(bounds)
}
