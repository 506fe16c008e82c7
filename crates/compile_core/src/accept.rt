//! The cases one after the other.
ghost use Rattle.std.specs.Prelude.{◌≡◌, ◌<◌, ◌^◌, [], ◌∷◌, ◌++◌, IfErr, IfOk, OnOk, length};
ghost use Rattle.policy_base.specs.Cases.{case_list};
ghost use Rattle.policy_base.specs.Policies.{policy_of};
ghost use Rattle.policy_base.specs.CaseNumbers.{OriginsAreRouters};
ghost use Rattle.compile_core.specs.Accepting.{AreAllGiven};
ghost use Rattle.compile_core.specs.Compiling.{IsRefusal};

use case_core::{CompileRefusal, KeptAutomata};
use case_evidence::accepted_case;
use evidence_law::limits::STEPS;
use graph_base::{Graph, Prefs};
use net_base::Net;
use policy_base::{CaseList, Policy};
use std::alloc::{AllocError, Global};

/// The graphs of cases that are accepted, and the preference numbers of their nodes.
#[derive(Drop)]
pub struct Accepted {
    /// The graph of each case, in order.
    pub graphs: Vec<Graph>,
    /// The preference numbers of each case's nodes, in the same order.
    pub prefs: Vec<Prefs>,
}

// Puts the graph and the numbers of a case behind the others.
fn keep(all: &mut Accepted, graph: Graph, prefs: Prefs) -> Result<(), AllocError>
    ensures graphs { OnOk result (all.new.graphs.items ≡ all.old.graphs.items ++ graph ∷ []) }
    ensures prefs { OnOk result (all.new.prefs.items ≡ all.old.prefs.items ++ prefs ∷ []) }
{
    all.graphs.push(graph)?;
    all.prefs.push(prefs)?;
    Ok(())
}

/// The graphs and numbers of all cases, or why the first case that isn't accepted is refused. What the steps
/// of a case take of the room is gone for the later ones.
pub fn accepted_cases(
    alloc: Global,
    net: &Net,
    policy: &Policy,
    cases: &CaseList,
) -> Result<Accepted, CompileRefusal>
    requires cases { cases.now.cases ≡ case_list net.now (policy_of policy.now) }
    requires few { length cases.now.cases < 2 ^ 32 }
    requires routers { OriginsAreRouters net.now policy.now.origins }
    ensures given { IfOk result (λ given. AreAllGiven net.now (policy_of policy.now) given.graphs.items given.prefs.items) }
    ensures refused { IfErr result (λ e. IsRefusal net.now (policy_of policy.now) e) }
{
    let mut all = Accepted {
        graphs: Vec::new(alloc),
        prefs: Vec::new(alloc),
    };
    let mut room = STEPS as u32;
    let mut automata = KeptAutomata::new(alloc, policy)?;
    for place in 0..cases.cases.as_slice().len() {
        let number = place as u32 + 1;
        let given = accepted_case(alloc, net, policy, cases, number, room, &mut automata)?;
        room -= given.used;
        keep(&mut all, given.graph, given.prefs)?;
    }
    Ok(all)
}
