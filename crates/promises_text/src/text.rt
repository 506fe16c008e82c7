//! The text of what a policy promises.
ghost use Rattle.std.specs.Prelude.{◌≡◌, ◌++◌, ◌<◌, IfOk, OnOk, length, map};
ghost use Rattle.std.specs.List.{count_by, flat_map};
ghost use Rattle.own_space.specs.Covers.{covered_in};
ghost use Rattle.policy_base.specs.Policies.{plain_statement, policy_of, ranking_of};
ghost use Rattle.promises_report.specs.Places.{sessions_of as sessions_in};
ghost use Rattle.promises_text.specs.Texts.{
  is_uncarried as is_uncarried_by,
  last_lines,
  own_text,
  statement_head,
  statement_text,
  statements_text,
  uncarried_line,
  uncarried_prefix,
};
ghost use Rattle.promises_report.specs.Cases.{HaveOneStep};
ghost use Rattle.promises_text.specs.Written.{IsTextOf};

use crate::groups::push_group;
use crate::last::{is_uncarried, push_all_apart, push_counts, push_uncarried};
use crate::line::push_line;
use crate::parts::push_all_open;
use evidence_base::CaseEvidence;
use input_output::NoMemory;
use net_base::{Loc, Net};
use own_space::{OpenCase, OpenPart, covered_by_others, open_parts};
use policy_base::{Origin, Policy, Ranked, Statement, alternatives};
use policy_text::push_ranks;
use promises_report::{ApartRanks, Counts, Group, apart_ranks, sessions_of, tell_cases};
use std::alloc::Global;
use text_parts::{push_bytes, push_number};

// Adds a group, where it's of the statement with a number.
#[tactic(auto, unfolding(crate::specs::Texts::own_text))]
fn push_own(
    alloc: Global,
    text: &mut Vec<u8>,
    net: &Net,
    policy: &Policy,
    sessions: &[(Loc, Loc)],
    marks: &[bool],
    number: u32,
    ranks: u64,
    group: &Group,
) -> Result<(), NoMemory>
    requires sessions { sessions.now ≡ sessions_in net.now }
    requires marks { marks.now ≡ covered_in (policy_of policy.now) }
    ensures { OnOk result (text.new.items ≡ text.old.items ++ own_text net.now (policy_of policy.now) number ranks group.now) }
{
    if group.statement != number {
        return Ok(());
    }
    push_group(alloc, text, net, policy, sessions, marks, group, ranks)
}

// Adds the groups of the statement with a number, which has so many ranks.
fn push_groups(
    alloc: Global,
    text: &mut Vec<u8>,
    net: &Net,
    policy: &Policy,
    sessions: &[(Loc, Loc)],
    marks: &[bool],
    groups: &[Group],
    number: u32,
    ranks: u64,
) -> Result<(), NoMemory>
    requires sessions { sessions.now ≡ sessions_in net.now }
    requires marks { marks.now ≡ covered_in (policy_of policy.now) }
    ensures { OnOk result (text.new.items ≡ text.old.items ++ flat_map (own_text net.now (policy_of policy.now) number ranks) groups.now) }
{
    for group in groups {
        push_own(
            alloc, text, net, policy, sessions, marks, number, ranks, group,
        )?;
    }
    Ok(())
}

// The line of a statement, and those of its ranks.
#[tactic(auto, unfolding(crate::specs::Texts::statement_head))]
fn head_of(alloc: Global, net: &Net, number: u32, ranked: &Ranked) -> Result<Vec<u8>, NoMemory>
    ensures { IfOk result (λ head. head.items ≡ statement_head net.now number (ranking_of ranked.now)) }
{
    let mut head = Vec::new(alloc);
    push_bytes(&mut head, b"statement ")?;
    push_number(&mut head, u64::from(number))?;
    push_bytes(&mut head, b"\n")?;
    push_ranks(alloc, &mut head, net, ranked)?;
    Ok(head)
}

// Adds a statement, where it has a case: its ranks, and its groups.
#[tactic(auto, unfolding(crate::specs::Texts::statement_text))]
fn push_statement(
    alloc: Global,
    text: &mut Vec<u8>,
    net: &Net,
    policy: &Policy,
    sessions: &[(Loc, Loc)],
    marks: &[bool],
    groups: &[Group],
    number: u32,
    statement: &Statement,
) -> Result<(), NoMemory>
    requires sessions { sessions.now ≡ sessions_in net.now }
    requires marks { marks.now ≡ covered_in (policy_of policy.now) }
    ensures { OnOk result (text.new.items ≡ text.old.items ++ statement_text net.now (policy_of policy.now) groups.now number (plain_statement statement.now)) }
{
    let mut own = Vec::new(alloc);
    let ranks = alternatives(&statement.ranked);
    push_groups(
        alloc, &mut own, net, policy, sessions, marks, groups, number, ranks,
    )?;
    let head = head_of(alloc, net, number, &statement.ranked)?;
    push_line(text, &head, &own, b"")
}

// Adds all statements that have cases.
fn push_statements(
    alloc: Global,
    text: &mut Vec<u8>,
    net: &Net,
    policy: &Policy,
    sessions: &[(Loc, Loc)],
    marks: &[bool],
    groups: &[Group],
) -> Result<(), NoMemory>
    requires sessions { sessions.now ≡ sessions_in net.now }
    requires marks { marks.now ≡ covered_in (policy_of policy.now) }
    ensures { OnOk result (text.new.items ≡ text.old.items ++ statements_text net.now (policy_of policy.now) groups.now 1 (map plain_statement policy.now.statements)) }
{
    let statements = policy.statements();
    for place in 0..statements.len() {
        let number = place as u32 + 1;
        push_statement(
            alloc,
            text,
            net,
            policy,
            sessions,
            marks,
            groups,
            number,
            &statements[place],
        )?;
    }
    Ok(())
}

// Adds the originated prefixes that no statement governs, each after a space.
fn push_bare(text: &mut Vec<u8>, policy: &Policy, origins: &[Origin]) -> Result<(), NoMemory>
    ensures { OnOk result (text.new.items ≡ text.old.items ++ flat_map (uncarried_prefix (policy_of policy.now)) origins.now) }
{
    for origin in origins {
        push_uncarried(text, policy, origin)?;
    }
    Ok(())
}

// Adds the line of the originated prefixes that no statement governs.
fn push_bare_line(
    alloc: Global,
    text: &mut Vec<u8>,
    policy: &Policy,
    origins: &[Origin],
) -> Result<(), NoMemory>
    ensures { OnOk result (text.new.items ≡ text.old.items ++ uncarried_line (policy_of policy.now) origins.now) }
{
    let mut prefixes = Vec::new(alloc);
    push_bare(&mut prefixes, policy, origins)?;
    push_line(text, b"uncarried", &prefixes, b"\n")
}

// How many originated prefixes no statement governs.
fn uncarried(policy: &Policy, origins: &[Origin]) -> usize
    ensures { result ≡ count_by (is_uncarried_by (policy_of policy.now)) origins.now }
{
    let mut count = 0;
    for origin in origins {
        if is_uncarried(policy, origin) {
            count += 1;
        }
    }
    count
}

// Adds what is said after the cases, where in those of `taking` some router takes what peers announce.
fn push_last(
    alloc: Global,
    text: &mut Vec<u8>,
    policy: &Policy,
    cases: usize,
    counts: Counts,
    taking: &[OpenCase],
    parts: &[OpenPart],
    pairs: &[ApartRanks],
) -> Result<(), NoMemory>
    ensures { OnOk result (text.new.items ≡ text.old.items ++ last_lines (policy_of policy.now) cases counts taking.now parts.now pairs.now) }
{
    let origins = policy.origins();
    push_bare_line(alloc, text, policy, origins)?;
    push_all_open(alloc, text, taking, parts)?;
    push_all_apart(text, pairs)?;
    let bare = uncarried(policy, origins);
    push_counts(text, cases, counts, bare, parts.len(), pairs.len())
}

/// The text of what a policy promises, by the evidence for its cases: each statement with its ranks, and its cases with the sources that
/// it claims, their best ranks while nothing has failed, and who isn't claimed, where cases that say the same stand together; the
/// originated prefixes that no statement governs; what peers are believed in inside the network's own space; and ranks that no source has
/// both of.
pub fn promises_text(
    alloc: Global,
    net: &Net,
    policy: &Policy,
    cases: &[CaseEvidence],
) -> Result<Vec<u8>, NoMemory>
    requires few { length cases.now < 4294967296 }
    requires one_step { HaveOneStep cases.now }
    ensures { IfOk result (λ text. IsTextOf net.now (policy_of policy.now) cases.now text.items) }
{
    let marks = covered_by_others(alloc, policy)?;
    let sessions = sessions_of(alloc, net)?;
    let sessions = sessions.as_slice();
    let mut text = Vec::new(alloc);
    let told = tell_cases(alloc, net, policy, cases, sessions, &marks)?;
    let parts = open_parts(alloc, policy, &told.taking)?;
    let pairs = apart_ranks(alloc, net, policy, cases)?;
    push_statements(
        alloc,
        &mut text,
        net,
        policy,
        sessions,
        &marks,
        &told.groups,
    )?;
    push_last(
        alloc,
        &mut text,
        policy,
        cases.len(),
        told.counts,
        &told.taking,
        &parts,
        &pairs,
    )?;
    Ok(text)
}
