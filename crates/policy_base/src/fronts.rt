//! The statements of a policy by the first bits of the prefixes that they govern.
ghost use Rattle.std.specs.Prelude.{◌≡◌, ◌≤◌, ◌<◌, ◌+◌, map, IfOk, OnOk, Some, None, if◌then◌else◌};
ghost use Rattle.std.specs.List.{list_any};
ghost use Rattle.std.specs.Option.{option_or};
ghost use Rattle.indexmap.specs.IndexMap.{get};
ghost use Rattle.policy_base.specs.declared.fronts.Front.{Front};
ghost use Rattle.policy_base.specs.Fronts.{same_front, front_of, has_front, first_with_front, least as least_of, least_number};
ghost use Rattle.policy_base.specs.Policies.{PlainPolicy, policy_of, plain_statement};
ghost use Rattle.policy_base.specs.Governing.{governing as governing_number};

use crate::policy::Policy;
use indexmap::IndexMap;
use input_output::NoMemory;
use net_base::{Pattern, Prefix};
use std::alloc::Global;

/// The first `len` bits of prefixes that are `of` bits long.
#[derive(Clone, Copy, PartialEq, Eq, Hash, Drop)]
pub(crate) struct Front {
    bits: u64,
    len: u8,
    of: u8,
}

// The first bits of a prefix.
fn first_bits(prefix: Prefix, len: u8) -> Front
    requires { len ≤ prefix.len }
    ensures { result ≡ front_of prefix len }
{
    Front {
        bits: u64::from(prefix.bits()) >> (32 - len),
        len,
        of: prefix.len(),
    }
}

// Notes a statement for a front that has none yet.
fn note(numbers: &mut IndexMap<Front, u32>, front: Front, number: u32) -> Result<(), NoMemory>
    ensures { OnOk result ((f : Front) → get same_front numbers.new f ≡ option_or (get same_front numbers.old f) (if same_front front f then Some number else None)) }
{
    if !numbers.contains_key(&front) {
        numbers.insert(front, number)?;
    }
    Ok(())
}

// Notes a statement for each front that a pattern of it has.
fn note_pattern(
    numbers: &mut IndexMap<Front, u32>,
    pattern: Pattern,
    number: u32,
) -> Result<(), NoMemory>
    ensures { OnOk result ((f : Front) → get same_front numbers.new f ≡ option_or (get same_front numbers.old f) (if has_front f pattern then Some number else None)) }
{
    let base = pattern.base();
    for of in base.len()..pattern.upto() + 1 {
        let front = Front {
            of,
            ..first_bits(base, base.len())
        };
        note(numbers, front, number)?;
    }
    Ok(())
}

// Notes a statement for each front that one of its patterns has.
fn note_patterns(
    numbers: &mut IndexMap<Front, u32>,
    patterns: &[Pattern],
    number: u32,
) -> Result<(), NoMemory>
    ensures { OnOk result ((f : Front) → get same_front numbers.new f ≡ option_or (get same_front numbers.old f) (if list_any (has_front f) patterns.now then Some number else None)) }
{
    for pattern in patterns {
        note_pattern(numbers, *pattern, number)?;
    }
    Ok(())
}

// The first statement of a policy for each front that a pattern has.
fn numbers_of(alloc: Global, policy: &Policy) -> Result<IndexMap<Front, u32>, NoMemory>
    ensures { IfOk result (λ numbers. (f : Front) → get same_front numbers f ≡ first_with_front (map plain_statement policy.now.statements) f 1) }
{
    let mut numbers = IndexMap::new(alloc);
    let statements = policy.statements();
    for i in 0..statements.len() {
        let patterns = statements[i].patterns.as_slice();
        note_patterns(&mut numbers, patterns, i as u32 + 1)?;
    }
    Ok(numbers)
}

// The lesser of two numbers either of which may be missing.
fn least(a: Option<u32>, b: Option<u32>) -> Option<u32>
    ensures { result ≡ least_of a b }
{
    match (a, b) {
        (Some(a), Some(b)) => Some(if a <= b { a } else { b }),
        (Some(a), None) => Some(a),
        (None, b) => b,
    }
}

// The least statement under a front of a prefix.
fn least_under(numbers: &IndexMap<Front, u32>, prefix: Prefix) -> Option<u32>
    ensures { result ≡ least_number (get same_front numbers.now) prefix (prefix.len + 1) }
{
    let mut first = None;
    for len in 0..prefix.len() + 1 {
        first = least(first, numbers.get(&first_bits(prefix, len)).copied());
    }
    first
}

/// The statements of a policy, found by the prefixes that they govern.
#[derive(Drop)]
pub(crate) struct Governors {
    numbers: IndexMap<Front, u32>,
}

impl Governors {
    ghost use Rattle.policy_base.specs.Fronts.{AreGovernors};

    /// The statements of a policy, ready to be asked.
    pub(crate) fn new(alloc: Global, policy: &Policy) -> Result<Governors, NoMemory>
        ensures { IfOk result (λ g. AreGovernors g (policy_of policy.now)) }
    {
        Ok(Governors {
            numbers: numbers_of(alloc, policy)?,
        })
    }

    /// The number of the statement that governs a prefix.
    pub(crate) fn governing(&self, prefix: Prefix) -> Option<u32>
        ensures { (policy : PlainPolicy) → AreGovernors self.now policy → result ≡ governing_number policy prefix }
    {
        least_under(&self.numbers, prefix)
    }
}
