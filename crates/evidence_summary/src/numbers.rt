//! How many different preference numbers there are.
ghost use Rattle.std.specs.Prelude.{◌≡◌, ◌<◌, ◌++◌, IfOk, OnOk, length};
ghost use Rattle.std.specs.List.{flat_map};
ghost use Rattle.evidence_summary.specs.Summary.{number_at_router, preference_count, router_numbers};

use evidence_base::CaseEvidence;
use input_output::NoMemory;
use net_base::Net;
use std::alloc::Global;
use std::collections::BTreeSet;

// Adds the number of a node, if it stands at a router.
fn add_number(
    numbers: &mut Vec<u32>,
    net: &Net,
    case: &CaseEvidence,
    node: u32,
) -> Result<(), NoMemory>
    requires { node < length case.now.graph.nodes }
    ensures { OnOk result (numbers.new.items ≡ numbers.old.items ++ number_at_router net.now case.now node) }
{
    let graph = case.graph();
    if net.is_router(graph.location(node)) {
        numbers.push(case.prefs()[node as usize])?;
    }
    Ok(())
}

// Those of a case.
fn add_numbers(numbers: &mut Vec<u32>, net: &Net, case: &CaseEvidence) -> Result<(), NoMemory>
    ensures { OnOk result (numbers.new.items ≡ numbers.old.items ++ router_numbers net.now case.now) }
{
    for node in 0..case.graph().nodes().len() as u32 {
        add_number(numbers, net, case, node)?;
    }
    Ok(())
}

// Those of all cases.
fn all_numbers(alloc: Global, net: &Net, cases: &[CaseEvidence]) -> Result<Vec<u32>, NoMemory>
    ensures { IfOk result (λ v. v.items ≡ flat_map (router_numbers net.now) cases.now) }
{
    let mut numbers = Vec::new(alloc);
    for case in cases {
        add_numbers(&mut numbers, net, case)?;
    }
    Ok(numbers)
}

/// How many different preference numbers the nodes at routers have.
#[tactic(auto, using(crate::proofs::Counts::numbers_apart))]
pub fn preferences(alloc: Global, net: &Net, cases: &[CaseEvidence]) -> Result<u64, NoMemory>
    ensures { IfOk result (λ count. count ≡ preference_count net.now cases.now) }
{
    let numbers = all_numbers(alloc, net, cases)?;
    let apart: BTreeSet<u32> = numbers.into_iter().collect(alloc)?;
    Ok(apart.len() as u64)
}
