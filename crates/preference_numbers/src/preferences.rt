//! The numbers.
ghost use Rattle.std.specs.Prelude.{◌≡◌, ◌<◌, ℕ, Bool, IfOk, IsTrue, length};
ghost use Rattle.graph_base.specs.Rules.{MeetsRules};
ghost use Rattle.net_base.specs.Sets.{holds};
ghost use Rattle.graph_base.specs.Preferences.{number_in};
ghost use Rattle.relation_law.specs.Evidence.{at_routers};
ghost use Rattle.preference_numbers.specs.Inferred.{AreFirsts, inferred};
ghost use Rattle.state_simulation.specs.Held.{HasEach, IsRelationOf};
ghost use Rattle.state_simulation.specs.Looked.{AreLocated};

use crate::classes::firsts;
use bit_rows::{Rows, count_outside};
use graph_base::{Graph, Prefs};
use input_output::NoMemory;
use net_base::{List, Net};
use state_simulation::{Relation, located_rows, stand_apart};
use std::alloc::{AllocError, Global};

/// The preference number of each node of the graph: at a router 100 and one for each class of nodes that
/// stands strictly lower, and 0 elsewhere. They meet the rules of evidence.
pub fn infer(
    alloc: Global,
    net: &Net,
    graph: &Graph,
    relation: &Relation,
) -> Result<Prefs, NoMemory>
    requires relation { IsRelationOf graph.now relation.now }
    requires total { HasEach relation.now }
    ensures size { IfOk result (λ prefs. length prefs.of ≡ length graph.now.nodes) }
    ensures numbers { IfOk result (λ prefs. (n : ℕ) → n < length graph.now.nodes → number_in prefs.of n ≡ inferred net.now graph.now relation.now n) }
    ensures rules { IfOk result (λ prefs. (external : Bool) → MeetsRules net.now (λ l. IsTrue (holds relation.now.claimed l)) external graph.now (number_in prefs.of)) }
{
    let count = graph.nodes().len() as u32;
    if stand_apart(alloc, graph)? {
        let of = numbers_apart(alloc, net, graph)?;
        return Ok(Prefs { of });
    }
    let firsts = firsts(alloc, relation, count)?;
    let located = located_rows(alloc, graph)?;
    let of = numbers(alloc, net, graph, relation, &firsts, &located)?;
    Ok(Prefs { of })
}

// The number of each node where no two stand at one location, so that none stands lower.
fn numbers_apart(alloc: Global, net: &Net, graph: &Graph) -> Result<List<u32>, AllocError>
    ensures size { IfOk result (λ of. length of ≡ length graph.now.nodes) }
    ensures numbers { IfOk result (λ of. (n : ℕ) → n < length graph.now.nodes → number_in of n ≡ at_routers net.now graph.now (λ _. 100) n) }
{
    let mut of = List::new(alloc);
    for node in 0..graph.nodes().len() as u32 {
        let is_router = net.is_router(graph.location(node));
        of.push(if is_router { 100 } else { 0 })?;
    }
    Ok(of)
}

// The number of each node, by the row of the first nodes of classes and the rows of the nodes of each location.
fn numbers(
    alloc: Global,
    net: &Net,
    graph: &Graph,
    relation: &Relation,
    firsts: &Rows,
    located: &Rows,
) -> Result<List<u32>, AllocError>
    requires relation { IsRelationOf graph.now relation.now }
    requires total { HasEach relation.now }
    requires firsts { AreFirsts (length graph.now.nodes) relation.now firsts.now }
    requires located { AreLocated graph.now located.now }
    ensures size { IfOk result (λ of. length of ≡ length graph.now.nodes) }
    ensures numbers { IfOk result (λ of. (n : ℕ) → n < length graph.now.nodes → number_in of n ≡ inferred net.now graph.now relation.now n) }
{
    let mut of = List::new(alloc);
    for node in 0..graph.nodes().len() as u32 {
        of.push(number(net, graph, relation, firsts, located, node))?;
    }
    Ok(of)
}

// The number of a node: at a router 100 and one for each first node at its location that isn't in its row.
fn number(
    net: &Net,
    graph: &Graph,
    relation: &Relation,
    firsts: &Rows,
    located: &Rows,
    node: u32,
) -> u32
    requires relation { IsRelationOf graph.now relation.now }
    requires total { HasEach relation.now }
    requires firsts { AreFirsts (length graph.now.nodes) relation.now firsts.now }
    requires located { AreLocated graph.now located.now }
    requires node { node < length graph.now.nodes }
    ensures { result ≡ inferred net.now graph.now relation.now node }
{
    if !net.is_router(graph.location(node)) {
        return 0;
    }
    let first = firsts.row(0);
    let here = located.row(graph.location(node).number() as u32);
    let above = relation.rows().row(node);
    100 + count_outside(first, here, above)
}
