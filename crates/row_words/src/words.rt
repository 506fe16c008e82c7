//! The words of a place, and the rows that show them.
ghost use Rattle.std.specs.Prelude.{◌≡◌, IfOk, OnOk, filter};
ghost use Rattle.std.specs.List.{list_any};
ghost use Rattle.row_words.specs.Clashes.{clashes as clashes_of, is_common as is_common_row, is_gained as is_gained_row, is_lost as is_lost_row};
ghost use Rattle.row_words.specs.WordsOfRows.{clash_somewhere as clash_of, is_better as is_better_row, is_lesser_rank, is_shown as is_shown_row, one_sided as one_sided_words, partly as partly_words, shown_rows as shown, words_of as words};

use crate::clash::{clashes, is_common, is_gained, is_lost};
use compare_base::{Row, Words};
use net_base::List;
use std::alloc::{AllocError, Global};

// Whether some row has two ranks.
fn some_common(rows: &[Row]) -> bool
    ensures { result ≡ list_any is_common_row rows.now }
{
    rows.iter().any(|row| is_common(*row))
}

// Whether some walk is lost.
fn some_lost(rows: &[Row]) -> bool
    ensures { result ≡ list_any is_lost_row rows.now }
{
    rows.iter().any(|row| is_lost(*row))
}

// Whether some walk is gained.
fn some_gained(rows: &[Row]) -> bool
    ensures { result ≡ list_any is_gained_row rows.now }
{
    rows.iter().any(|row| is_gained(*row))
}

// Whether a row clashes with some other one.
fn clashes_with_some(rows: &[Row], row: Row) -> bool
    ensures { result ≡ list_any (clashes_of row) rows.now }
{
    rows.iter().any(|other| clashes(row, *other))
}

// Whether some two rows clash.
fn some_clash(rows: &[Row]) -> bool
    ensures { result ≡ clash_of rows.now }
{
    rows.iter().any(|row| clashes_with_some(rows, *row))
}

// The words where some row has two ranks.
fn partly(lost: bool, gained: bool, reordered: bool) -> Option<Words>
    ensures { result ≡ partly_words lost gained reordered }
{
    if lost || gained || reordered {
        Some(Words::Partly {
            lost,
            gained,
            reordered,
        })
    } else {
        None
    }
}

// The words where no row has two ranks.
fn one_sided(lost: bool, gained: bool) -> Option<Words>
    ensures { result ≡ one_sided_words lost gained }
{
    match (lost, gained) {
        (true, true) => Some(Words::Replaced),
        (true, false) => Some(Words::Unclaimed),
        (false, true) => Some(Words::Claimed),
        (false, false) => None,
    }
}

/// In what a place with these rows differs, if it does.
pub fn words_of(rows: &[Row]) -> Option<Words>
    ensures { result ≡ words rows.now }
{
    let lost = some_lost(rows);
    let gained = some_gained(rows);
    if some_common(rows) {
        partly(lost, gained, some_clash(rows))
    } else {
        one_sided(lost, gained)
    }
}

// Whether the other row has a better rank in a policy that permits both walks.
fn is_better(row: Row, other: Row) -> bool
    ensures { result ≡ is_better_row row other }
{
    is_lesser(other.old, row.old) || is_lesser(other.new, row.new)
}

// Whether a rank is less than another.
fn is_lesser(rank: Option<u32>, than: Option<u32>) -> bool
    ensures { result ≡ is_lesser_rank rank than }
{
    let (Some(rank), Some(than)) = (rank, than) else {
        return false;
    };
    rank < than
}

// Whether some other row is better.
fn some_better(rows: &[Row], row: Row) -> bool
    ensures { result ≡ list_any (is_better_row row) rows.now }
{
    rows.iter().any(|other| is_better(row, *other))
}

// Whether a row of a place shows in what the place differs.
fn is_shown(rows: &[Row], row: Row) -> bool
    ensures { result ≡ is_shown_row rows.now row }
{
    if some_common(rows) {
        !is_common(row) || clashes_with_some(rows, row)
    } else {
        !some_better(rows, row)
    }
}

/// The rows that show in what a place with these rows differs, in their order. Where some row has two ranks these are the rows with one
/// rank and those that clash with another. Elsewhere they are the best row of each policy.
pub fn shown_rows(alloc: Global, rows: &[Row]) -> Result<List<Row>, AllocError>
    ensures { IfOk result (λ list. list ≡ shown rows.now) }
{
    let mut list = List::new(alloc);
    for i in 0..rows.len() {
        let row = rows[i];
        if is_shown(rows, row) {
            list.push(row)?;
        }
    }
    Ok(list)
}
