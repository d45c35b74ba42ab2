//! The rows of a pair that was not inside the set before it grew, by one block or by several.

ghost use Rattle.std.specs.Prelude.{◌≡◌, ◌<◌, ◌≤◌, ℕ, length, slice_get, None, Some};
ghost use Rattle.sp_dag.specs.Numbered.{graph_of, pairs_of};
ghost use Rattle.sp_view.specs.Settled.{AreSides};
ghost use Rattle.sp_view.specs.Steps.{IsStep};
ghost use Rattle.sp_view.specs.Stored.{row_of, spare};
ghost use Rattle.sp_view.specs.Views.{IsFresh};

use crate::pair_rows::new_rows;
use crate::stored::{RowName, taken};
use crate::voting::Voting;
use sp_rows::RowPool;

// Two new rows, of the votes on a pair inside the set.
pub(crate) fn new_entry(set: &Voting, pool: &mut RowPool, pair: u32) -> (RowName, RowName)
    requires listed { pair < length (pairs_of set.now.dag.now) }
    requires inside { pair < length set.now.frozen.now.pluses }
    requires room { 2 ≤ spare pool.old }
    ensures rows { (x y : ℕ) → slice_get (pairs_of set.now.dag.now) pair ≡ Some (x, y) →
        AreSides (graph_of set.now.dag.now) set.now.members.now x y
        (row_of pool.new result.0) (row_of pool.new result.1) }
    ensures fresh { IsFresh pool.old pool.new result }
    ensures step { IsStep pool.old pool.new None (Some result) }
{
    let new = new_rows(set, pair);
    let plus = taken(pool, &new.plus);
    let minus = taken(pool, &new.minus);
    (plus, minus)
}
