//! How the rows of a pair are written where genesis' vote alone turns. It stands in the row of +1 where it voted
//! so, and in that of -1, so each row is known to change or to stay, and none is compared.

ghost use Rattle.std.specs.Prelude.{◌≡◌, ◌≢◌, ◌<◌, ◌==◌, ℕ, length, IsTrue, if◌then◌else◌, slice_get, Some};
ghost use Rattle.sp_bits.specs.Places.{IsRow};
ghost use Rattle.sp_dag.specs.Numbered.{graph_of, pairs_of};
ghost use Rattle.sp_model.specs.Graph.{has};
ghost use Rattle.sp_model.specs.Votes.{vote};
ghost use Rattle.sp_view.specs.Steps.{AreAnew, IsNew, IsOld, IsStep, IsWritten};
ghost use Rattle.sp_view.specs.Stored.{count_of, row_of, spare};
ghost use Rattle.sp_view.specs.Sums.{IsLone};

use crate::genesis_vote::{Turn, with_root};
use crate::joining::Joining;
use crate::stored::{RowName, row_at};
use crate::writing::replaced;
use sp_bits::Row;
use sp_rows::RowPool;

// Writes a row anew with genesis in it, or without, if that isn't how it stands.
fn turned_row(pool: &mut RowPool, id: RowName, was_in: bool, is_in: bool) -> RowName
    requires some { 0 < count_of pool.old id }
    requires was { was_in ≡ has (row_of pool.old id) 0 }
    requires room { was_in ≢ is_in → 0 < spare pool.old }
    ensures row { IsRow (row_of pool.new result) }
    ensures places { (z : ℕ) → has (row_of pool.new result) z
        ≡ (if z == 0 then is_in else has (row_of pool.old id) z) }
    ensures same { was_in ≡ is_in → result ≡ id }
    ensures kept { row_of pool.new result ≡ row_of pool.old id → result ≡ id }
    ensures written { IsWritten pool.old pool.new id result }
{
    if was_in == is_in {
        return id;
    }
    let row = with_root(&row_at(pool, id), is_in);
    replaced(pool, id, &row)
}

// The rows of a pair that was inside the set before the block joined, where genesis' vote alone may change; that before and
// that after are given.
pub(crate) fn turned_entry(
    join: &Joining,
    pool: &mut RowPool,
    pair: u32,
    entry: (RowName, RowName),
    todo: &Row,
    turn: &Turn,
) -> (RowName, RowName)
    requires listed { pair < length (pairs_of join.now.set.dag.now) }
    requires rows { IsOld join.now.set.dag.now join.now.before.now join.now.set.members.now pair pool.old entry }
    requires anew { AreAnew join.now.set.dag.now join.now.set.members.now pair pool.old entry todo.now }
    requires lone { IsLone todo.now 0 }
    requires root { IsTrue (has join.now.before.now 0) }
    requires votes { (x y : ℕ) → slice_get (pairs_of join.now.set.dag.now) pair ≡ Some (x, y) →
        (turn.now.before ≡ vote (graph_of join.now.set.dag.now) join.now.before.now 0 x y)
        × (turn.now.after ≡ vote (graph_of join.now.set.dag.now) join.now.set.members.now 0 x y) }
    ensures rows { IsNew join.now.set.dag.now join.now.before.now join.now.set.members.now pair pool.new entry result }
    ensures step { IsStep pool.old pool.new (Some entry) (Some result) }
{
    let plus = turned_row(pool, entry.0, turn.before > 0, turn.after > 0);
    let minus = turned_row(pool, entry.1, turn.before < 0, turn.after < 0);
    (plus, minus)
}
