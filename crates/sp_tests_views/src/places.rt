//! Rows by the places that they have.

use sp_bits::Row;
use sp_rows::{RowId, RowPool};
use std::test::Fail;

/// The places of a row, if it is live.
pub(crate) fn places(pool: &RowPool, row: RowId) -> Result<Row, Fail> {
    if pool.is_live(row) {
        Ok(Row::from_words(pool.words(row)))
    } else {
        Err("not live".into())
    }
}

/// Whether a row has just these places.
pub(crate) fn has_just(row: &Row, places: &[u8]) -> bool {
    let mut other = Row::empty();
    for place in places {
        other.set(*place as u16);
    }
    is_same(row, &other)
}

/// Whether two rows have the same places.
pub(crate) fn is_same(row: &Row, other: &Row) -> bool {
    row.within(other) && other.within(row)
}
