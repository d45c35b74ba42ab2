//! Which votes on a pair may change when a block joins the set: those of the loose voters in its past that don't vote
//! as it does. Where there are none, the pair stays as it is. Of the others those that voted for neither side are told by
//! its vote, and only those that voted against it are asked (`reask.rt`).

ghost use Rattle.std.specs.Prelude.{◌≡◌, ◌<◌, ◌≤◌, ◌&&◌, ◌↔◌, [], ℕ, List, length, IsTrue, if◌then◌else◌, slice_get, unwrap_or, Some, pos, negsuc};
ghost use Rattle.sp_bits.specs.Places.{difference};
ghost use Rattle.sp_model.specs.Graph.{has, in_past};
ghost use Rattle.sp_model.specs.Votes.{vote};
ghost use Rattle.sp_dag.specs.Numbered.{graph_of, pairs_of};
ghost use Rattle.sp_view.specs.Idle.{IsPlace};
ghost use Rattle.sp_view.specs.Stored.{count_of, row_of};
ghost use Rattle.sp_view.specs.Settled.{AreKept, AreOpen, AreSides};
ghost use Rattle.sp_view.specs.Views.{holds, entry_at};

use crate::joining::Joining;
use crate::runs::Place;
use crate::stored::{RowName, row_at};
use sp_bits::Row;
use sp_rows::RowPool;

// The row of a pair's voters of +1, or that of those of -1.
fn side_of(pool: &RowPool, entry: &(RowName, RowName), up: bool) -> Row
    requires { (r : ℕ) → holds (Some entry.now) r ≤ count_of pool.now r }
    ensures { result ≡ (if up then row_of pool.now entry.now.0 else row_of pool.now entry.now.1) }
{
    let side = if up { entry.0 } else { entry.1 };
    row_at(pool, side)
}

// Whether a row has no place.
pub(crate) fn is_none(row: &Row) -> bool
    ensures { IsTrue result ↔ (row.now ≡ []) }
{
    row.highest().is_none()
}

// The voters of an old pair whose votes may change when the block joins, which votes +1 on it, or else -1. Where there are none,
// the pair stays as it is. The pair's first block is given. Those of them that voted for neither side are told then (`risen` in
// `reask.rt`), and only those that voted against the block are asked.
pub(crate) fn asked(
    join: &Joining,
    pool: &RowPool,
    place: &Place,
    x: u16,
    entry: &(RowName, RowName),
    up: bool,
) -> Option<Row>
    requires place { IsPlace join.now.set.dag.now join.now.b place.now.pair place.now.second place.now.end
        place.now.above place.now.free }
    requires pair { slice_get (pairs_of join.now.set.dag.now) place.now.pair ≡ Some (x, place.now.second) }
    requires live { (r : ℕ) → holds (Some entry.now) r ≤ count_of pool.now r }
    ensures within { (z : ℕ) → IsTrue (has (unwrap_or result []) z) → IsTrue (has join.now.set.members.now z) }
    ensures below { (z : ℕ) → IsTrue (has (unwrap_or result []) z) →
        IsTrue (in_past (graph_of join.now.set.dag.now) z join.now.b) }
    ensures kept { (x y : ℕ) → slice_get (pairs_of join.now.set.dag.now) place.now.pair ≡ Some (x, y) →
        AreSides (graph_of join.now.set.dag.now) join.now.before.now x y
        (row_of pool.now entry.now.0) (row_of pool.now entry.now.1) →
        vote (graph_of join.now.set.dag.now) join.now.set.members.now join.now.b x y ≡ (if up then pos 1 else negsuc 0) →
        AreOpen (graph_of join.now.set.dag.now) join.now.set.members.now x y (has (unwrap_or result []))
        × AreKept (graph_of join.now.set.dag.now) join.now.set.members.now x y (has (unwrap_or result []))
        (difference (row_of pool.now entry.now.0) (unwrap_or result []))
        (difference (row_of pool.now entry.now.1) (unwrap_or result [])) }
{
    // Tells the proof that there are at most 512 blocks, in order.
    let dag = join.set.dag;
    let _blocks = dag.len();
    // Those that vote as it does, and those that the first block binds.
    let mut settled = side_of(pool, entry, up);
    settled.or_with(dag.closed(x));
    let mut todo = place.free;
    todo.without(&settled);
    if is_none(&todo) {
        return None;
    }
    Some(todo)
}

// Whether both blocks of a pair are members.
pub(crate) fn has_both(members: &Row, x: u16, y: u16) -> bool
    requires x_in { x < 512 }
    requires y_in { y < 512 }
    ensures { result ≡ (has members.now x && has members.now y) }
{
    members.test(x) && members.test(y)
}

// The entry of a pair; behind the last one there is none.
pub(crate) fn entry_of(
    entries: &[Option<(RowName, RowName)>],
    pair: usize,
) -> Option<(RowName, RowName)>
    ensures { result ≡ entry_at entries.now pair }
{
    match entries.get(pair) {
        Some(entry) => *entry,
        None => None,
    }
}
