//! Rows that tell of a difference.
ghost use Rattle.std.specs.Prelude.{◌≡◌};
ghost use Rattle.row_words.specs.Clashes.{
  clashes as clashes_of,
  is_common as is_common_row,
  is_gained as is_gained_row,
  is_lost as is_lost_row,
  ranks_differ as order_differs,
};

use compare_base::Row;

/// Whether both policies permit the walk.
pub fn is_common(row: Row) -> bool
    ensures { result ≡ is_common_row row }
{
    row.old.is_some() && row.new.is_some()
}

/// Whether only the old policy permits the walk.
pub fn is_lost(row: Row) -> bool
    ensures { result ≡ is_lost_row row }
{
    row.old.is_some() && row.new.is_none()
}

/// Whether only the new policy permits the walk.
pub fn is_gained(row: Row) -> bool
    ensures { result ≡ is_gained_row row }
{
    row.old.is_none() && row.new.is_some()
}

// Whether two ranks compare otherwise in the one policy than in the other.
fn ranks_differ(old: u32, new: u32, other_old: u32, other_new: u32) -> bool
    ensures { result ≡ order_differs old new other_old other_new }
{
    (old < other_old) != (new < other_new) || (other_old < old) != (other_new < new)
}

/// Whether the two policies order two walks otherwise, both of which they permit.
pub fn clashes(row: Row, other: Row) -> bool
    ensures { result ≡ clashes_of row other }
{
    let (Some(old), Some(new)) = (row.old, row.new) else {
        return false;
    };
    let (Some(other_old), Some(other_new)) = (other.old, other.new) else {
        return false;
    };
    ranks_differ(old, new, other_old, other_new)
}
