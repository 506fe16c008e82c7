//! The graph of a case as it is built.
ghost use Rattle.std.specs.Prelude.{◌≤◌, List as Items, length, IfOk, IsErrOf};
ghost use Rattle.net_base.specs.NetSets.{locations as all_locations};
ghost use Rattle.path_exprs.specs.declared.limits.TheConstants.{NODES};
ghost use Rattle.path_automata.specs.States.{Begins, Extends, states_of};
ghost use Rattle.path_exprs.specs.Expression.{Expression};
ghost use Rattle.path_exprs.specs.Standings.{PassesStates, plan_of};
ghost use Rattle.case_core.specs.BuildOutcomes.{PassesSteps};
ghost use Rattle.walk_states.specs.Built.{IsBuilt};

use crate::build_fault::BuildFault;
use graph_base::Graph;
use net_base::Net;
use path_automata::Automata;
use path_exprs::RankedExpr;
use policy_base::{Case, FromSet};
use std::alloc::Global;
use walk_states::standings;

/// The graph of a case of a network, for the sources that the case's statement claims and by the automaton of what its
/// paths must meet, with at most `room` steps. The automaton is given back for the statement's next case: its states stay.
pub fn build_over(
    alloc: Global,
    net: &Net,
    case: &Case,
    from: &FromSet,
    automata: Automata,
    room: u32,
) -> Result<(Graph, Automata), BuildFault>
    requires begun { (es : Items Expression) × Begins automata (all_locations net.now) es }
    ensures built { (es : Items Expression) → Begins automata (all_locations net.now) es → IfOk result (λ r. IsBuilt net.now (plan_of es from.now case.now) r.0) }
    ensures nodes { IfOk result (λ r. length r.0.nodes ≤ NODES) }
    ensures steps { IfOk result (λ r. length r.0.steps ≤ room) }
    ensures many_states { (es : Items Expression) → Begins automata (all_locations net.now) es
        → IsErrOf result BuildFault.TooManyStates → PassesStates net.now (plan_of es from.now case.now) NODES }
    ensures many_steps { (es : Items Expression) → Begins automata (all_locations net.now) es
        → IsErrOf result BuildFault.TooManySteps → PassesSteps net.now (plan_of es from.now case.now) NODES room }
    ensures kept { IfOk result (λ r. Extends (states_of automata) (states_of r.1)) }
{
    let given = standings(alloc, net, case, from, automata)?;
    if given.0.steps().len() > room as usize {
        return Err(BuildFault::TooManySteps);
    }
    Ok(given)
}

/// The graph of a single case of a network, for the sources that the case's statement claims and for what its
/// paths must meet, with at most `room` steps.
pub fn build(
    alloc: Global,
    net: &Net,
    case: &Case,
    from: &FromSet,
    ranked: &RankedExpr,
    room: u32,
) -> Result<Graph, BuildFault>
    ensures built { IfOk result (λ g. IsBuilt net.now (plan_of ranked.now from.now case.now) g) }
    ensures nodes { IfOk result (λ g. length g.nodes ≤ NODES) }
    ensures steps { IfOk result (λ g. length g.steps ≤ room) }
    ensures many_states { IsErrOf result BuildFault.TooManyStates → PassesStates net.now (plan_of ranked.now from.now case.now) NODES }
    ensures many_steps { IsErrOf result BuildFault.TooManySteps → PassesSteps net.now (plan_of ranked.now from.now case.now) NODES room }
{
    let automata = Automata::new(alloc, ranked, net)?;
    let given = build_over(alloc, net, case, from, automata, room)?;
    Ok(given.0)
}
