//! The case list.
ghost use Rattle.std.specs.Prelude.{◌≡◌, ◌∷◌, [], ◌++◌, map, not, is_some, OnOk, IfOk, false};
ghost use Rattle.std.specs.List.{list_any};
ghost use Rattle.indexmap.specs.IndexSet.{contains};
ghost use Rattle.net_base.specs.Prefixes.{PlainPrefix, same_prefix};
ghost use Rattle.policy_base.specs.Policies.{PlainPolicy, policy_of, plain_statement};
ghost use Rattle.policy_base.specs.Governing.{originated_at};
ghost use Rattle.policy_base.specs.Cases.{with_prefix, originated_cases, is_originated as is_originated_by, external_case, external_cases, case_list};
ghost use Rattle.policy_base.specs.CaseIndex.{kind_of, AreOriginated};

use crate::case::{Case, CaseList};
use crate::fronts::Governors;
use crate::policy::{Origin, Policy, Statement};
use indexmap::IndexSet;
use input_output::NoMemory;
use net_base::{List, LocSet, Net, Pattern, Prefix};
use std::alloc::Global;

// A case of one prefix.
fn case_of(alloc: Global, statement: u32, origin: Origin) -> Result<Case, NoMemory>
    ensures { IfOk result (λ c. c ≡ record { statement = statement; origins = origin.at; external = false; prefixes = origin.prefix ∷ [] }) }
{
    let mut prefixes = List::new(alloc);
    prefixes.push(origin.prefix)?;
    Ok(Case {
        statement,
        origins: origin.at,
        external: false,
        prefixes,
    })
}

// Puts a prefix into the case that has its statement and its origins, or into a new one. Those of each case are kept in
// the order of the cases.
fn add_prefix(
    alloc: Global,
    cases: &mut Vec<Case>,
    kinds: &mut IndexSet<(u32, LocSet)>,
    statement: u32,
    origin: Origin,
) -> Result<(), NoMemory>
    requires { kinds.old.keys ≡ map kind_of cases.old.items }
    ensures joined { OnOk result (cases.new.items ≡ with_prefix statement origin cases.old.items) }
    ensures kinds { OnOk result (kinds.new.keys ≡ map kind_of cases.new.items) }
{
    let (place, _) = kinds.insert_full((statement, origin.at))?;
    if place < cases.len() {
        cases[place].prefixes.push(origin.prefix)?;
    } else {
        cases.push(case_of(alloc, statement, origin)?)?;
    }
    Ok(())
}

// The cases of the originated prefixes that a statement governs.
fn originated(alloc: Global, policy: &Policy) -> Result<Vec<Case>, NoMemory>
    ensures { IfOk result (λ cases. cases.items ≡ originated_cases (policy_of policy.now) policy.now.origins []) }
{
    let governors = Governors::new(alloc, policy)?;
    let mut cases = Vec::new(alloc);
    let mut kinds = IndexSet::new(alloc);
    for origin in policy.origins() {
        if let Some(statement) = governors.governing(origin.prefix) {
            add_prefix(alloc, &mut cases, &mut kinds, statement, *origin)?;
        }
    }
    Ok(cases)
}

// The prefixes that are originated.
fn prefixes_of(alloc: Global, origins: &[Origin]) -> Result<IndexSet<Prefix>, NoMemory>
    ensures { IfOk result (λ set. (p : PlainPrefix) → contains same_prefix set p ≡ is_some (originated_at origins.now p)) }
{
    let mut prefixes = IndexSet::new(alloc);
    for origin in origins {
        prefixes.insert(origin.prefix)?;
    }
    Ok(prefixes)
}

// Whether a pattern is one single prefix that is originated.
fn is_originated(prefixes: &IndexSet<Prefix>, pattern: Pattern) -> bool
    ensures { (policy : PlainPolicy) → AreOriginated prefixes.now policy → result ≡ is_originated_by policy pattern }
{
    pattern.upto() == pattern.base().len() && prefixes.contains(&pattern.base())
}

// Whether each pattern is one single prefix that is originated.
fn are_originated(prefixes: &IndexSet<Prefix>, patterns: &[Pattern]) -> bool
    ensures { (policy : PlainPolicy) → AreOriginated prefixes.now policy → result ≡ not (list_any (λ pattern. not (is_originated_by policy pattern)) patterns.now) }
{
    for pattern in patterns {
        if !is_originated(prefixes, *pattern) {
            return false;
        }
    }
    true
}

// The external case of a statement, where it has one.
fn add_external_case(
    alloc: Global,
    net: &Net,
    prefixes: &IndexSet<Prefix>,
    number: u32,
    statement: &Statement,
    cases: &mut Vec<Case>,
) -> Result<(), NoMemory>
    ensures { (policy : PlainPolicy) → AreOriginated prefixes.now policy → OnOk result (cases.new.items ≡ cases.old.items ++ external_case net.now policy number (plain_statement statement.now)) }
{
    if are_originated(prefixes, statement.patterns.as_slice()) {
        return Ok(());
    }
    cases.push(Case {
        statement: number,
        origins: net.peer_set(),
        external: true,
        prefixes: List::new(alloc),
    })?;
    Ok(())
}

// The external cases.
fn add_external(
    alloc: Global,
    net: &Net,
    policy: &Policy,
    cases: &mut Vec<Case>,
) -> Result<(), NoMemory>
    ensures { OnOk result (cases.new.items ≡ cases.old.items ++ external_cases net.now (policy_of policy.now) 1 (map plain_statement policy.now.statements)) }
{
    let prefixes = prefixes_of(alloc, policy.origins())?;
    let statements = policy.statements();
    for i in 0..statements.len() {
        add_external_case(alloc, net, &prefixes, i as u32 + 1, &statements[i], cases)?;
    }
    Ok(())
}

/// The cases of a policy in a network. First the originated prefixes that a statement governs, in order of the
/// policy, those with the same statement and the same origins together; then, where the network has a peer, a
/// case for each statement of whose patterns some is not one single originated prefix.
pub fn cases(alloc: Global, net: &Net, policy: &Policy) -> Result<CaseList, NoMemory>
    ensures { IfOk result (λ list. list.cases ≡ case_list net.now (policy_of policy.now)) }
{
    let mut all = originated(alloc, policy)?;
    if !net.peers().is_empty() {
        add_external(alloc, net, policy, &mut all)?;
    }
    Ok(CaseList {
        cases: List::from_vec(all),
    })
}
