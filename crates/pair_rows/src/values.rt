//! Rows that are met at places.
use compare_base::{Place, Row};

/// A row that walks of a place have, and the node of a graph of pairs at the place's router over which they go.
#[derive(Clone, Copy)]
pub struct Met {
    /// The place whose walks have the row.
    pub place: Place,
    /// The row.
    pub row: Row,
    /// The number of the node in the graph of pairs, from 0.
    pub node: u32,
}

/// A row of a place, with the least node with which it is met.
#[derive(Clone, Copy)]
pub struct FirstRow {
    /// The row.
    pub row: Row,
    /// The number of the least node with which it is met, from 0.
    pub node: u32,
}
