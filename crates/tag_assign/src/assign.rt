//! The tags of nodes.
ghost use Rattle.std.specs.Prelude.{◌≡◌, ◌+◌, ◌<◌, ◌^◌, ◌++◌, List, [], IfOk, OnOk, length, slice_index, slice_set, if◌then◌else◌};
ghost use Rattle.net_base.specs.Network.{is_router};
ghost use Rattle.graph_base.specs.declared.graph.Node.{Node as PlainNode};
ghost use Rattle.tag_assign.specs.Counts.{HasCounts, HaveRoom};
ghost use Rattle.tag_assign.specs.Tagging.{tag_for, tags_after, tags_of, all_nodes};

use graph_base::{Graph, Node, Tags};
use input_output::NoMemory;
use net_base::{List, Loc, Net, Tag};
use std::alloc::{AllocError, Global};

// The tag of the next node at a location, which is counted.
fn next_tag(net: &Net, counts: &mut [u32], at: Loc) -> Tag
    requires counters { length counts.old ≡ length net.now.routers }
    requires room { HaveRoom counts.old 1 }
    ensures tag { result ≡ tag_for net.now at (slice_index counts.old at + 1) }
    ensures counts { counts.new ≡ (if is_router net.now at then slice_set counts.old at (slice_index counts.old at + 1) else counts.old) }
{
    let place = at.number() as usize;
    let routers = net.routers();
    if place >= routers.len() {
        return Tag { asn: 0, value: 0 };
    }
    let count = counts[place] + 1;
    counts[place] = count;
    Tag {
        asn: routers[place].asn,
        value: count,
    }
}

// The tags of nodes that come after those counted.
fn node_tags(
    alloc: Global,
    net: &Net,
    nodes: &[Node],
    counts: &mut [u32],
) -> Result<List<Tag>, AllocError>
    requires counters { length counts.old ≡ length net.now.routers }
    requires room { HaveRoom counts.old (length nodes.now) }
    ensures counts { OnOk result ((before : List PlainNode) → HasCounts counts.old before → HasCounts counts.new (before ++ nodes.now)) }
    ensures tags { IfOk result (λ tags. (before : List PlainNode) → HasCounts counts.old before → tags ≡ tags_after net.now before nodes.now) }
{
    let mut tags = List::new(alloc);
    for node in nodes {
        tags.push(next_tag(net, counts, node.loc))?;
    }
    Ok(tags)
}

// The tags of the graphs' nodes.
fn graph_tags(
    alloc: Global,
    net: &Net,
    graphs: &[Graph],
    counts: &mut [u32],
) -> Result<List<List<Tag>>, AllocError>
    requires counters { length counts.old ≡ length net.now.routers }
    requires none { HasCounts counts.old [] }
    requires few { length (all_nodes graphs.now) < 2 ^ 32 }
    ensures { IfOk result (λ tags. tags ≡ tags_of net.now graphs.now) }
{
    let mut tags = List::new(alloc);
    for graph in graphs {
        tags.push(node_tags(alloc, net, graph.nodes(), counts)?)?;
    }
    Ok(tags)
}

/// The tags of the nodes of graphs, which are fewer than 4,294,967,296 together: at a router the router's AS number with
/// the node's place, from 1, among the nodes at that router, over all graphs in order. What is at a peer has no tag.
pub fn tags(alloc: Global, net: &Net, graphs: &[Graph]) -> Result<Tags, NoMemory>
    requires { length (all_nodes graphs.now) < 2 ^ 32 }
    ensures { IfOk result (λ tags. tags.of ≡ tags_of net.now graphs.now) }
{
    let mut counts = vec![in alloc; 0u32; net.routers().len()]?;
    let tags = graph_tags(alloc, net, graphs, &mut counts)?;
    Ok(Tags { of: tags })
}
