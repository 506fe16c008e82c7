//! Ranks of a statement that no source has both of.
ghost use Rattle.std.specs.Prelude.{◌≡◌, ◌+◌, ◌++◌, ◌<◌, ◌≤◌, IfOk, List, OnOk, map};
ghost use Rattle.bit_rows.specs.Tables.{has_at};
ghost use Rattle.policy_base.specs.Policies.{plain_statement, policy_of, ranking_of};
ghost use Rattle.promises_report.specs.Apart.{
  all_apart,
  apart_pair,
  apart_ranks as apart_in,
  are_apart,
  pairs_of,
  pairs_with,
  ranks_of as ranks_in,
};
ghost use Rattle.promises_report.specs.Cases.{AreTold, cases_of};
ghost use Rattle.promises_report.specs.Promises.{Promises};
ghost use Rattle.promises_report.specs.Tables.{AreMet, meet_among};

use crate::meeting::met_ranks;
use bit_rows::Rows;
use evidence_base::CaseEvidence;
use input_output::NoMemory;
use net_base::Net;
use policy_base::limits::ALTERNATIVES;
use policy_base::{Policy, Ranked, Statement, alternatives};
use std::alloc::Global;

/// Two ranks of a statement that claimed sources have, and none has both: its preference between them decides nothing.
#[derive(Clone, Copy)]
pub struct ApartRanks {
    /// The number of the statement, from 1.
    pub statement: u32,
    /// The better rank, from 1.
    pub better: u32,
    /// The worse rank.
    pub worse: u32,
}

// Whether two ranks are apart, where these meet.
fn is_apart(met: &Rows, better: u32, worse: u32) -> bool
    requires better { better < met.now.count }
    requires worse { worse < met.now.count }
    requires square { met.now.bits ≡ met.now.count }
    ensures { result ≡ are_apart (has_at met.now) better worse }
{
    better < worse && met.get(better, better) && met.get(worse, worse) && !met.get(better, worse)
}

// Adds two ranks, each 1 more than a number, where they are apart.
#[tactic(auto, unfolding(crate::specs::Apart::apart_pair))]
fn push_pair(
    pairs: &mut Vec<ApartRanks>,
    met: &Rows,
    number: u32,
    a: u32,
    b: u32,
) -> Result<(), NoMemory>
    requires better { a + 1 < met.now.count }
    requires worse { b + 1 < met.now.count }
    requires square { met.now.bits ≡ met.now.count }
    requires few { met.now.count ≤ 65 }
    ensures { OnOk result (pairs.new.items ≡ pairs.old.items ++ apart_pair (has_at met.now) number a b) }
{
    if is_apart(met, a + 1, b + 1) {
        pairs.push(ApartRanks {
            statement: number,
            better: a + 1,
            worse: b + 1,
        })?;
    }
    Ok(())
}

// Adds the ranks, of so many, that are apart from one, which is 1 more than `a`.
fn push_with(
    pairs: &mut Vec<ApartRanks>,
    met: &Rows,
    number: u32,
    ranks: u32,
    a: u32,
) -> Result<(), NoMemory>
    requires better { a < ranks }
    requires count { met.now.count ≡ ranks + 1 }
    requires square { met.now.bits ≡ met.now.count }
    requires few { met.now.count ≤ 65 }
    ensures { OnOk result (pairs.new.items ≡ pairs.old.items ++ pairs_with (has_at met.now) number ranks a) }
{
    for b in 0..ranks {
        push_pair(pairs, met, number, a, b)?;
    }
    Ok(())
}

// Adds the pairs of ranks, of so many, that are apart.
fn push_pairs(
    pairs: &mut Vec<ApartRanks>,
    met: &Rows,
    number: u32,
    ranks: u32,
) -> Result<(), NoMemory>
    requires count { met.now.count ≡ ranks + 1 }
    requires square { met.now.bits ≡ met.now.count }
    requires few { met.now.count ≤ 65 }
    ensures { OnOk result (pairs.new.items ≡ pairs.old.items ++ pairs_of (has_at met.now) number ranks) }
{
    for a in 0..ranks {
        push_with(pairs, met, number, ranks, a)?;
    }
    Ok(())
}

// How many ranks a statement has; no policy is compiled that has more than these.
fn ranks_of(ranked: &Ranked) -> u32
    ensures ranks { result ≡ ranks_in (ranking_of ranked.now) }
    ensures few { result ≤ 64 }
{
    alternatives(ranked).min(ALTERNATIVES) as u32
}

// Adds the pairs of ranks of a statement that are apart.
fn push_statement(
    alloc: Global,
    pairs: &mut Vec<ApartRanks>,
    net: &Net,
    cases: &[CaseEvidence],
    number: u32,
    statement: &Statement,
) -> Result<(), NoMemory>
    ensures { OnOk result (pairs.new.items ≡ pairs.old.items ++ pairs_of (meet_among net.now cases.now number) number (ranks_in (plain_statement statement.now).ranked)) }
{
    let ranks = ranks_of(&statement.ranked);
    if ranks < 2 {
        return Ok(());
    }
    let met = met_ranks(alloc, net, cases, number, ranks)?;
    push_pairs(pairs, &met, number, ranks)?;
    Ok(())
}

// Adds the pairs of ranks of all statements that are apart.
fn push_statements(
    alloc: Global,
    pairs: &mut Vec<ApartRanks>,
    net: &Net,
    policy: &Policy,
    cases: &[CaseEvidence],
) -> Result<(), NoMemory>
    ensures { OnOk result (pairs.new.items ≡ pairs.old.items ++ all_apart (meet_among net.now cases.now) 1 (map plain_statement policy.now.statements)) }
{
    let statements = policy.statements();
    for place in 0..statements.len() {
        let number = place as u32 + 1;
        push_statement(alloc, pairs, net, cases, number, &statements[place])?;
    }
    Ok(())
}

/// The pairs of ranks that are apart, by the graphs of the cases: by statement, and then by the better and the worse rank.
pub fn apart_ranks(
    alloc: Global,
    net: &Net,
    policy: &Policy,
    cases: &[CaseEvidence],
) -> Result<Vec<ApartRanks>, NoMemory>
    ensures { IfOk result (λ pairs. (xs : List Promises) → AreTold net.now cases.now xs → pairs.items ≡ apart_in net.now (policy_of policy.now) (cases_of cases.now) xs) }
{
    let mut pairs = Vec::new(alloc);
    push_statements(alloc, &mut pairs, net, policy, cases)?;
    Ok(pairs)
}
