//! How often each row is counted, beside how many entries of some views hold it.

use sp_rows::{RowId, RowPool};
use sp_view::View;

/// More ids than a pool has rows in any graph here. A block on 64 that stand side by side has 2,016
/// pairs in its past, each with two rows.
pub(crate) const IDS: u32 = 16_384;

/// Counts an entry's row; false where the row has no place in the list.
fn count_row(holders: &mut [u32], row: RowId) -> bool {
    match holders.get_mut(row.0 as usize) {
        Some(count) => {
            *count = count.saturating_add(1);
            true
        }
        None => false,
    }
}

/// Counts the rows of the entries of a view; false where an entry has one row twice, or one has no
/// place in the list.
pub(crate) fn count_view(holders: &mut [u32], view: &View, pairs: u32) -> bool {
    let mut all = true;
    for pair in 0..pairs {
        if let Some((plus, minus)) = view.rows(pair) {
            all &= plus != minus && count_row(holders, plus) && count_row(holders, minus);
        }
    }
    all
}

/// Whether a row is counted so often, and isn't live where that is never.
fn is_counted(pool: &RowPool, row: RowId, count: u32) -> bool {
    if count == 0 {
        return !pool.is_live(row);
    }
    pool.is_live(row) && pool.count(row) == count
}

/// Whether each of so many first rows of a pool is counted as often as was found, and no other is live.
pub(crate) fn are_counted(pool: &RowPool, holders: &[u32]) -> bool {
    let mut all = true;
    let mut live = 0usize;
    for id in 0..IDS {
        let count = holders.get(id as usize).copied().unwrap_or(0);
        all &= is_counted(pool, RowId(id), count);
        live = live.saturating_add((count > 0) as usize);
    }
    all && live == pool.live()
}
