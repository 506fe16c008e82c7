//! What an evidence text says, before it is judged.
use graph_base::Node;
use net_base::{List, Prefix, Tag};
use policy_base::Case;

/// A node with its preference number and its tag.
#[derive(Clone, Copy)]
pub struct NodeEntry {
    /// The node: its location, its rank, and whether it hears.
    pub node: Node,
    /// Its preference number.
    pub number: u32,
    /// Its tag.
    pub tag: Tag,
}

/// A case whose numbers are still to be judged: `None` stands for what holds a number that is not whole or out of
/// its range.
#[derive(Drop)]
pub struct RawCase {
    /// Whether the case is external.
    pub external: bool,
    /// The nodes, in order of their numbers.
    pub nodes: List<Option<NodeEntry>>,
    /// The locations of the origins, which ascend where all are in their range.
    pub origins: List<Option<u32>>,
    /// The originated prefixes.
    pub prefixes: List<Prefix>,
    /// The nodes at which walks begin.
    pub starts: List<Option<u32>>,
    /// The number of the statement, from 1.
    pub statement: Option<u32>,
    /// The steps, each from a node to the next one.
    pub steps: List<Option<(u32, u32)>>,
}

/// The first half of a case whose numbers are still to be judged.
#[derive(Drop)]
pub struct RawPlaces {
    /// The nodes, in order of their numbers.
    pub nodes: List<Option<NodeEntry>>,
    /// The locations of the origins.
    pub origins: List<Option<u32>>,
    /// The originated prefixes.
    pub prefixes: List<Prefix>,
}

/// And the second half.
#[derive(Drop)]
pub struct RawWays {
    /// The nodes at which walks begin.
    pub starts: List<Option<u32>>,
    /// The number of the statement, from 1.
    pub statement: Option<u32>,
    /// The steps, each from a node to the next one.
    pub steps: List<Option<(u32, u32)>>,
}

/// A text that has the shape of evidence.
#[derive(Drop)]
pub struct RawEvidence {
    /// The cases, in order of the text.
    pub cases: List<RawCase>,
    /// The version of the text, which should be 1.
    pub version: Option<u32>,
}

/// A case whose numbers are in their ranges. Its starts and steps may name nodes that aren't in the list.
#[derive(Drop)]
pub struct ReadCase {
    /// The case, whose statement's number is at least 1.
    pub case: Case,
    /// The nodes, in order of their numbers.
    pub nodes: List<NodeEntry>,
    /// The nodes at which walks begin.
    pub starts: List<u32>,
    /// The steps, each from a node to the next one.
    pub steps: List<(u32, u32)>,
}

/// A text all of whose numbers are in their ranges.
#[derive(Drop)]
pub struct ReadText {
    /// The cases, in order of the text.
    pub cases: List<ReadCase>,
    /// The version of the text, which should be 1.
    pub version: u32,
}
