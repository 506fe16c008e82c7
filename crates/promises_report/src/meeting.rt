//! Which ranks of a statement meet at some source: a row for each rank, with a bit for each rank that it meets.
ghost use Rattle.std.specs.Prelude.{◌≡◌, ℕ, ◌+◌, ◌<◌, ◌≤◌, ◌&&◌, ◌||◌, ◌==◌, false, IfOk, OnOk};
ghost use Rattle.bit_rows.specs.Tables.{IsSameSize, has_at};
ghost use Rattle.promises_report.specs.Apart.{meet_in};
ghost use Rattle.promises_report.specs.NodeRanks.{has_rank_in};
ghost use Rattle.promises_report.specs.Tables.{AreMet, meet_among, meet_by};

use crate::source_ranks::{some_has_both, source_ranks};
use bit_rows::Rows;
use evidence_base::CaseEvidence;
use graph_base::Graph;
use input_output::NoMemory;
use net_base::{Net, known_net};
use std::alloc::Global;

// Sets the bit of two ranks, where some source has both.
fn meet_pair(met: &mut Rows, rows: &Rows, i: u32, j: u32)
    requires row { i < met.old.count }
    requires bit { j < met.old.bits }
    requires one { i < rows.now.count }
    requires other { j < rows.now.count }
    requires clear { (b : ℕ) → has_at rows.now 0 b ≡ false }
    ensures size { IsSameSize met.new met.old }
    ensures bits { (a b : ℕ) → a < met.old.count → has_at met.new a b ≡ (has_at met.old a b || ((a == i && b == j) && meet_by rows.now i j)) }
{
    if !met.get(i, j) && some_has_both(rows, i, j) {
        met.set(i, j);
    }
}

// Sets the bits of a rank, of so many, where some source has it and the other one.
fn meet_row(met: &mut Rows, rows: &Rows, ranks: u32, i: u32)
    requires row { i < met.old.count }
    requires few { ranks ≤ 64 }
    requires bits { met.old.bits ≡ ranks + 1 }
    requires one { i < rows.now.count }
    requires other { rows.now.count ≡ ranks + 1 }
    requires clear { (b : ℕ) → has_at rows.now 0 b ≡ false }
    ensures size { IsSameSize met.new met.old }
    ensures bits { (a b : ℕ) → a < met.old.count → b < ranks + 1 → has_at met.new a b ≡ (has_at met.old a b || (a == i && meet_by rows.now i b)) }
{
    for j in 0..ranks + 1 {
        meet_pair(met, rows, i, j);
    }
}

// Sets the bits of all ranks, of so many, where some source has both.
fn meet_rows(met: &mut Rows, rows: &Rows, ranks: u32)
    requires few { ranks ≤ 64 }
    requires count { met.old.count ≡ ranks + 1 }
    requires bits { met.old.bits ≡ ranks + 1 }
    requires rows { rows.now.count ≡ ranks + 1 }
    requires clear { (b : ℕ) → has_at rows.now 0 b ≡ false }
    ensures size { IsSameSize met.new met.old }
    ensures bits { (a b : ℕ) → a < ranks + 1 → b < ranks + 1 → has_at met.new a b ≡ (has_at met.old a b || meet_by rows.now a b) }
{
    for i in 0..ranks + 1 {
        meet_row(met, rows, ranks, i);
    }
}

// Sets the bits of the ranks that meet in a case.
fn meet_case(
    alloc: Global,
    met: &mut Rows,
    net: &Net,
    graph: &Graph,
    ranks: u32,
) -> Result<(), NoMemory>
    requires few { ranks ≤ 64 }
    requires count { met.old.count ≡ ranks + 1 }
    requires bits { met.old.bits ≡ ranks + 1 }
    ensures size { OnOk result (IsSameSize met.new met.old) }
    ensures bits { OnOk result ((i j : ℕ) → 0 < i → i < ranks + 1 → 0 < j → j < ranks + 1 → has_at met.new i j ≡ (has_at met.old i j || meet_in net.now (has_rank_in graph.now) i j)) }
{
    known_net(net);
    let rows = source_ranks(alloc, net, graph, ranks)?;
    meet_rows(met, &rows, ranks);
    Ok(())
}

// Sets the bits of the ranks that meet in a case, where it is of the statement with a number.
fn meet_own(
    alloc: Global,
    met: &mut Rows,
    net: &Net,
    case: &CaseEvidence,
    number: u32,
    ranks: u32,
) -> Result<(), NoMemory>
    requires few { ranks ≤ 64 }
    requires count { met.old.count ≡ ranks + 1 }
    requires bits { met.old.bits ≡ ranks + 1 }
    ensures size { OnOk result (IsSameSize met.new met.old) }
    ensures bits { OnOk result ((i j : ℕ) → 0 < i → i < ranks + 1 → 0 < j → j < ranks + 1
        → has_at met.new i j ≡ (has_at met.old i j || (case.now.case.statement == number && meet_in net.now (has_rank_in case.now.graph) i j))) }
{
    if case.case().statement != number {
        return Ok(());
    }
    meet_case(alloc, met, net, case.graph(), ranks)
}

/// The ranks, of so many, that meet in the cases of the statement with a number.
pub(crate) fn met_ranks(
    alloc: Global,
    net: &Net,
    cases: &[CaseEvidence],
    number: u32,
    ranks: u32,
) -> Result<Rows, NoMemory>
    requires { ranks ≤ 64 }
    ensures { IfOk result (AreMet (meet_among net.now cases.now number) ranks) }
{
    let mut met = Rows::new(alloc, ranks + 1, ranks + 1)?;
    for case in cases {
        meet_own(alloc, &mut met, net, case, number, ranks)?;
    }
    Ok(met)
}
