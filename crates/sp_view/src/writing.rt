//! How a row of a pair is written over: in its place where nobody else holds it, and into a new row elsewhere.

ghost use Rattle.std.specs.Prelude.{◌≡◌, ◌≢◌, ◌<◌};
ghost use Rattle.sp_view.specs.Steps.{IsWritten};
ghost use Rattle.sp_view.specs.Stored.{count_of, row_of, spare};

use crate::stored::{RowName, give, holders, put, row_at, taken};
use sp_bits::Row;
use sp_rows::RowPool;

// Writes a row over another one: in its place where nobody else holds that one, and into a new row elsewhere.
pub(crate) fn replaced(pool: &mut RowPool, id: RowName, row: &Row) -> RowName
    requires some { 0 < count_of pool.old id }
    requires room { 0 < spare pool.old }
    ensures row { row_of pool.new result ≡ row.now }
    ensures written { IsWritten pool.old pool.new id result }
{
    if holders(pool, id) == 1 {
        put(pool, id, row);
        return id;
    }
    give(pool, id);
    taken(pool, row)
}

// Writes a row over another one, if the two differ.
pub(crate) fn written(pool: &mut RowPool, id: RowName, row: &Row) -> RowName
    requires some { 0 < count_of pool.old id }
    requires room { row.now ≢ row_of pool.old id → 0 < spare pool.old }
    ensures row { row_of pool.new result ≡ row.now }
    ensures kept { row.now ≡ row_of pool.old id → result ≡ id }
    ensures written { IsWritten pool.old pool.new id result }
{
    if row.same(&row_at(pool, id)) {
        return id;
    }
    replaced(pool, id, row)
}
