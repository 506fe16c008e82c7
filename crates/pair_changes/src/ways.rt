//! How a place differs.
ghost use Rattle.std.specs.Prelude.{◌≡◌, IfOk};
ghost use Rattle.pair_rows.specs.Meetings.{rows_alone as alone};

use compare_base::{Row, Words};
use net_base::List;
use pair_rows::FirstRow;
use row_words::{shown_rows, words_of};
use std::alloc::{AllocError, Global};

/// How a place differs: its words, and the rows that show them.
#[derive(Drop)]
pub(crate) struct Way {
    pub(crate) words: Words,
    pub(crate) rows: List<Row>,
}

// Rows without their nodes.
fn rows_alone(alloc: Global, rows: &[FirstRow]) -> Result<List<Row>, AllocError>
    ensures { IfOk result (λ list. list ≡ alone rows.now) }
{
    let mut list = List::new(alloc);
    for first in rows {
        list.push(first.row)?;
    }
    Ok(list)
}

impl Way {
    ghost use Rattle.pair_changes.specs.Kinds.{way_by};

    /// How a place with these rows differs, if it does.
    pub(crate) fn of(alloc: Global, rows: &[FirstRow]) -> Result<Option<Way>, AllocError>
        ensures { IfOk result (λ way. way ≡ way_by (alone rows.now)) }
    {
        let rows = rows_alone(alloc, rows)?;
        match words_of(rows.as_slice()) {
            None => Ok(None),
            Some(words) => Ok(Some(Way {
                words,
                rows: shown_rows(alloc, rows.as_slice())?,
            })),
        }
    }
}
