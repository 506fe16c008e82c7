//! What the lines of a group have of one case: a word behind a space, in which items stand behind commas.
ghost use Rattle.std.specs.Prelude.{◌≡◌, ◌++◌, IfOk, OnOk, length, map};
ghost use Rattle.std.specs.List.{flat_map};
ghost use Rattle.evidence_base.specs.Made.{patterns_of};
ghost use Rattle.net_base.specs.Locations.{numbers_below};
ghost use Rattle.net_base.specs.Network.{name_of};
ghost use Rattle.net_base.specs.Prefixes.{only};
ghost use Rattle.policy_base.specs.Policies.{policy_of};
ghost use Rattle.promises_report.specs.Groups.{
  comma_origin,
  comma_pattern,
  number_word as number_word_in,
  origins_word as origins_word_in,
  prefixes_word as prefixes_word_in,
  word_of as word_in,
};

use input_output::NoMemory;
use net_base::{List, Loc, Net, Pattern, Prefix};
use policy_base::{Case, Policy, statement_at};
use std::alloc::Global;
use text_parts::{push_bytes, push_name, push_number, push_pattern};

// What stands behind commas, as a word behind a space: the first comma gives way.
fn word_of(alloc: Global, joined: &[u8]) -> Result<List<u8>, NoMemory>
    ensures { IfOk result (λ word. word ≡ word_in joined.now) }
{
    let mut word = Vec::new(alloc);
    if let [_, rest @ ..] = joined {
        push_bytes(&mut word, b" ")?;
        push_bytes(&mut word, rest)?;
    }
    Ok(List::from_vec(word))
}

/// A number after a space.
#[tactic(auto, unfolding(crate::specs::Groups::number_word))]
pub fn number_word(alloc: Global, number: usize) -> Result<List<u8>, NoMemory>
    ensures { IfOk result (λ word. word ≡ number_word_in number) }
{
    let mut word = Vec::new(alloc);
    push_bytes(&mut word, b" ")?;
    push_number(&mut word, number as u64)?;
    Ok(List::from_vec(word))
}

// Adds a pattern behind a comma.
#[tactic(auto, unfolding(crate::specs::Groups::comma_pattern))]
fn push_next_pattern(text: &mut Vec<u8>, pattern: Pattern) -> Result<(), NoMemory>
    ensures { OnOk result (text.new.items ≡ text.old.items ++ comma_pattern pattern) }
{
    push_bytes(text, b",")?;
    push_pattern(text, pattern)
}

// Adds patterns, each behind a comma.
fn push_patterns(text: &mut Vec<u8>, patterns: &[Pattern]) -> Result<(), NoMemory>
    ensures { OnOk result (text.new.items ≡ text.old.items ++ flat_map comma_pattern patterns.now) }
{
    for pattern in patterns {
        push_next_pattern(text, *pattern)?;
    }
    Ok(())
}

// Adds prefixes, each behind a comma.
fn push_prefixes(text: &mut Vec<u8>, prefixes: &[Prefix]) -> Result<(), NoMemory>
    ensures { OnOk result (text.new.items ≡ text.old.items ++ flat_map comma_pattern (map only prefixes.now)) }
{
    for prefix in prefixes {
        push_next_pattern(text, Pattern::only(*prefix))?;
    }
    Ok(())
}

// Adds the prefixes of a case or, where it is external, the patterns of its statement, each behind a comma.
fn push_governed(text: &mut Vec<u8>, policy: &Policy, case: &Case) -> Result<(), NoMemory>
    ensures { OnOk result (text.new.items ≡ text.old.items ++ flat_map comma_pattern (patterns_of (policy_of policy.now) case.now)) }
{
    if !case.external {
        return push_prefixes(text, case.prefixes.as_slice());
    }
    match statement_at(policy, case.statement) {
        None => Ok(()),
        Some(statement) => push_patterns(text, statement.patterns.as_slice()),
    }
}

/// The prefixes of a case or, where it is external, the patterns of its statement.
pub fn prefixes_word(alloc: Global, policy: &Policy, case: &Case) -> Result<List<u8>, NoMemory>
    ensures { IfOk result (λ word. word ≡ prefixes_word_in (policy_of policy.now) case.now) }
{
    let mut joined = Vec::new(alloc);
    push_governed(&mut joined, policy, case)?;
    word_of(alloc, &joined)
}

// Adds the name of a location, where the network has it.
fn push_location(text: &mut Vec<u8>, net: &Net, at: Loc) -> Result<(), NoMemory>
    ensures { OnOk result (text.new.items ≡ text.old.items ++ name_of net.now at) }
{
    if net.is_router(at) || net.is_peer(at) {
        push_name(text, &net.name_of(at))
    } else {
        Ok(())
    }
}

// Adds a router behind a comma, where it's an origin.
#[tactic(auto, unfolding(crate::specs::Groups::comma_origin))]
fn push_origin(text: &mut Vec<u8>, net: &Net, case: &Case, router: Loc) -> Result<(), NoMemory>
    ensures { OnOk result (text.new.items ≡ text.old.items ++ comma_origin net.now case.now router) }
{
    if !case.origins.holds(router) {
        return Ok(());
    }
    push_bytes(text, b",")?;
    push_location(text, net, router)
}

// Adds the routers that are origins, each behind a comma.
fn push_origins(text: &mut Vec<u8>, net: &Net, case: &Case) -> Result<(), NoMemory>
    ensures { OnOk result (text.new.items ≡ text.old.items ++ flat_map (comma_origin net.now case.now) (numbers_below (length net.now.routers))) }
{
    for place in 0..net.routers().len() {
        push_origin(text, net, case, Loc::new(place as u16))?;
    }
    Ok(())
}

/// The origins of a case.
pub fn origins_word(alloc: Global, net: &Net, case: &Case) -> Result<List<u8>, NoMemory>
    ensures { IfOk result (λ word. word ≡ origins_word_in net.now case.now) }
{
    let mut text = Vec::new(alloc);
    if case.external {
        push_bytes(&mut text, b" peers")?;
        return Ok(List::from_vec(text));
    }
    push_origins(&mut text, net, case)?;
    word_of(alloc, &text)
}
