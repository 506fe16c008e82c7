//! The row of a pair of nodes, and the order of rows.
ghost use Rattle.std.specs.Prelude.{◌≡◌};
ghost use Rattle.std.specs.Option.{option_and_then};
ghost use Rattle.graph_base.specs.Runs.{rank_at};
ghost use Rattle.pair_rows.specs.Meetings.{earlier, is_row as is_row_of_walks, less_rank, row_at};

use compare_base::Row;
use graph_base::Graph;
use pair_graph::NodePair;

// The rank of a node, where there is one.
fn rank_of(graph: &Graph, node: Option<u32>) -> Option<u32>
    ensures { result ≡ option_and_then (rank_at graph.now) node }
{
    graph.nodes().get(node? as usize)?.rank
}

/// The ranks of a pair of nodes.
pub(crate) fn row_of(first: &Graph, second: &Graph, pair: NodePair) -> Row
    ensures { result ≡ row_at first.now second.now pair }
{
    Row {
        old: rank_of(first, pair.first),
        new: rank_of(second, pair.second),
    }
}

/// Whether some policy permits the walks with these ranks.
pub(crate) fn is_row(row: Row) -> bool
    ensures { result ≡ is_row_of_walks row }
{
    row.old.is_some() || row.new.is_some()
}

// Whether a rank is less than another: none is greatest.
fn is_less(rank: Option<u32>, other: Option<u32>) -> bool
    ensures { result ≡ less_rank rank other }
{
    match (rank, other) {
        (Some(rank), Some(other)) => rank < other,
        (Some(_), None) => true,
        (None, _) => false,
    }
}

/// Whether a row stands before another.
pub(crate) fn is_earlier(row: Row, other: Row) -> bool
    ensures { result ≡ earlier row other }
{
    is_less(row.old, other.old) || (row.old == other.old && is_less(row.new, other.new))
}
