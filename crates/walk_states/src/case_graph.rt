//! The graph over the standings of a case.
ghost use Rattle.std.specs.Prelude.{◌≡◌, ◌≤◌, [], List as Items, length, IfOk, IsErrOf, OnOk};
ghost use Rattle.graph_base.specs.Graphs.{IsGraph};
ghost use Rattle.net_base.specs.declared.limits.TheConstants.{LOCATIONS};
ghost use Rattle.path_exprs.specs.declared.limits.TheConstants.{NODES};
ghost use Rattle.net_base.specs.Locations.{numbers_below};
ghost use Rattle.net_base.specs.NetSets.{locations as all_locations};
ghost use Rattle.path_automata.specs.States.{Begins, Extends, states_of};
ghost use Rattle.path_exprs.specs.Expression.{Expression};
ghost use Rattle.path_exprs.specs.Standings.{PassesStates, plan_of};
ghost use Rattle.walk_states.specs.Built.{IsBuilt};
ghost use Rattle.walk_states.specs.Growth.{standings_of, IsOver};

use crate::fault::StandingsFault;
use crate::reached::Reached;
use graph_base::{Graph, Node};
use input_output::NoMemory;
use net_base::{List, Net};
use path_automata::Automata;
use policy_base::{Case, FromSet};
use std::alloc::Global;

// The numbers below a count.
fn numbers(alloc: Global, count: usize) -> Result<List<u32>, NoMemory>
    requires { count ≤ LOCATIONS }
    ensures { IfOk result (λ ns. ns ≡ numbers_below count) }
{
    let mut all = List::new(alloc);
    for number in 0..count {
        all.push(number as u32)?;
    }
    Ok(all)
}

// Gathers all that walks reach. These are the nodes, and the numbers of those in which walks start.
fn gather(
    alloc: Global,
    net: &Net,
    case: &Case,
    from: &FromSet,
    reached: &mut Reached,
) -> Result<(List<Node>, List<u32>), StandingsFault>
    requires begun { (es : Items Expression) × Begins reached.old.automata (all_locations net.now) es }
    requires over { IsOver net.now reached.old }
    requires none { standings_of reached.old ≡ [] }
    requires no_steps { reached.old.steps.items ≡ [] }
    ensures graph { IfOk result (λ r. IsGraph (record { nodes = r.0; starts = r.1; steps = reached.new.steps.items })) }
    ensures built { (es : Items Expression) → Begins reached.old.automata (all_locations net.now) es
        → IfOk result (λ r. IsBuilt net.now (plan_of es from.now case.now) (record { nodes = r.0; starts = r.1; steps = reached.new.steps.items })) }
    ensures few { IfOk result (λ r. length r.0 ≤ NODES) }
    ensures many { (es : Items Expression) → Begins reached.old.automata (all_locations net.now) es
        → IsErrOf result StandingsFault.TooMany → PassesStates net.now (plan_of es from.now case.now) NODES }
    ensures kept { OnOk result (Extends (states_of reached.old.automata) (states_of reached.new.automata)) }
{
    reached.add_starts(net, case)?;
    let starts = numbers(alloc, reached.len())?;
    reached.walk(alloc, net, case)?;
    let nodes = reached.nodes(alloc, net, case, from)?;
    Ok((nodes, starts))
}

/// Where walks of a case of a network can stand, for the sources that the case's statement claims and by the automaton of what
/// its paths must meet: a node for each location with what is left of the alternatives there, and the steps between them.
/// There are at most 4,096, and no more are ever held. The automaton is given back, with the states that were found.
pub fn standings(
    alloc: Global,
    net: &Net,
    case: &Case,
    from: &FromSet,
    automata: Automata,
) -> Result<(Graph, Automata), StandingsFault>
    requires begun { (es : Items Expression) × Begins automata (all_locations net.now) es }
    ensures built { (es : Items Expression) → Begins automata (all_locations net.now) es → IfOk result (λ r. IsBuilt net.now (plan_of es from.now case.now) r.0) }
    ensures few { IfOk result (λ r. length r.0.nodes ≤ NODES) }
    ensures many { (es : Items Expression) → Begins automata (all_locations net.now) es
        → IsErrOf result StandingsFault.TooMany → PassesStates net.now (plan_of es from.now case.now) NODES }
    ensures kept { IfOk result (λ r. Extends (states_of automata) (states_of r.1)) }
{
    let mut reached = Reached::new(alloc, net, automata);
    let (nodes, starts) = gather(alloc, net, case, from, &mut reached)?;
    let (steps, automata) = reached.into_parts();
    Ok((Graph::new(nodes, starts, steps), automata))
}
