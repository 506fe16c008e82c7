//! The table of what can be reached.
ghost use Rattle.std.specs.Prelude.{◌≡◌, ◌<◌};

use bit_rows::Rows;
use std::marker::Model;

/// Which nodes of a graph can be reached from which.
#[derive(Drop)]
pub struct Reach {
    rows: Rows,
}

impl Model for Reach {
    ghost use Rattle.bit_rows.specs.Tables.{PlainRows};

    ghost Value = { PlainRows };

    ghost view = { λ r. r.rows };
}

impl Reach {
    ghost use Rattle.reach_prune.specs.Reachable.{can_reach};

    /// The table with these rows: that of a node has the nodes from which it can be reached.
    pub fn new(rows: Rows) -> Reach
        ensures { result ≡ rows }
    {
        Reach { rows }
    }

    /// A row for each node, with a bit for each node from which it can be reached.
    pub fn rows(&self) -> &Rows
        ensures { result.now ≡ self.now }
    {
        &self.rows
    }

    /// Whether one node can be reached from another. A node reaches itself.
    pub fn has(&self, from: u32, to: u32) -> bool
        requires from { from < self.now.bits }
        requires to { to < self.now.count }
        ensures { result ≡ can_reach self.now from to }
    {
        self.rows.get(to, from)
    }
}
