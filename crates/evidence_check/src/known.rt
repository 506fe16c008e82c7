//! What every graph keeps.
ghost use Rattle.graph_base.specs.Graphs.{IsGraph};

use graph_base::Graph;

/// What every graph keeps.
pub(crate) fn known_graph(graph: &Graph)
    ensures { IsGraph graph.now }
{
    let _nodes = graph.nodes();
}
