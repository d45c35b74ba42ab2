//! The rows of a pair that was inside the set before it grew, where the votes of some voters may change. Where it is told that
//! those of them that voted for neither side vote for one now, only those are asked that voted against that. Elsewhere all are.

ghost use Rattle.std.specs.Prelude.{◌≡◌, ◌<◌, ◌≤◌, ℕ, List, length, IsTrue, if◌then◌else◌, slice_get, Some, pos, negsuc};
ghost use Rattle.sp_bits.specs.Places.{difference};
ghost use Rattle.sp_dag.specs.Numbered.{graph_of, pairs_of};
ghost use Rattle.sp_model.specs.Graph.{Graph, has, in_past};
ghost use Rattle.sp_model.specs.Votes.{vote};
ghost use Rattle.sp_view.specs.Settled.{AreKept, AreOpen, AreSides, AreTold, IsAsked};
ghost use Rattle.sp_view.specs.Steps.{AreAnew, IsNew, IsOld, IsStep};
ghost use Rattle.sp_view.specs.Stored.{count_of, row_of};
ghost use Rattle.sp_view.specs.Views.{holds};

use crate::both_sides::Known;
use crate::joining::Joining;
use crate::pair_rows::{Sides, settled_rows};
use crate::stored::{RowName, row_at};
use crate::voting::Voting;
use crate::writing::written;
use sp_bits::Row;
use sp_rows::RowPool;

// The votes of those of `todo` that are told, where a side is given: each one that didn't vote against it votes for it. The votes
// of all others stay open.
fn risen(sides: &Sides, todo: &Row, up: Option<bool>) -> Known
    ensures within { (z : ℕ) → IsTrue (has result.todo z) → IsTrue (has todo.now z) }
    ensures rows { (g : Graph) (set : List ℕ) (x y : ℕ) → IsAsked g set →
        AreTold g set x y up todo.now sides.now.plus sides.now.minus →
        AreOpen g set x y (has todo.now) →
        AreKept g set x y (has todo.now)
        (difference sides.now.plus todo.now) (difference sides.now.minus todo.now) →
        AreOpen g set x y (has result.todo)
        × AreKept g set x y (has result.todo) result.sides.plus result.sides.minus }
{
    // Tells the proof what a row is.
    let _plus = sides.plus.count();
    let _minus = sides.minus.count();
    let mut known = Known {
        sides: *sides,
        todo: *todo,
    };
    if let Some(up) = up {
        if up {
            known.todo.and_with(&sides.minus);
            known.sides.plus.or_with(todo);
        } else {
            known.todo.and_with(&sides.plus);
            known.sides.minus.or_with(todo);
        }
    }
    known.sides.plus.without(&known.todo);
    known.sides.minus.without(&known.todo);
    known
}

// The voters of a pair that was inside the set before it grew, where the votes of `todo` may change. Where a side is given, those
// of them that voted for neither vote for that one now.
pub(crate) fn rows_anew(
    set: &Voting,
    pool: &RowPool,
    pair: u32,
    entry: &(RowName, RowName),
    todo: &Row,
    up: Option<bool>,
) -> Sides
    requires inside { pair < length set.now.frozen.now.pluses }
    requires live { (r : ℕ) → holds (Some entry.now) r ≤ count_of pool.now r }
    requires within { (z : ℕ) → IsTrue (has todo.now z) → IsTrue (has set.now.members.now z) }
    ensures { (x y : ℕ) → slice_get (pairs_of set.now.dag.now) pair ≡ Some (x, y) →
        AreTold (graph_of set.now.dag.now) set.now.members.now x y up todo.now
        (row_of pool.now entry.now.0) (row_of pool.now entry.now.1) →
        AreOpen (graph_of set.now.dag.now) set.now.members.now x y (has todo.now)
        × AreKept (graph_of set.now.dag.now) set.now.members.now x y (has todo.now)
        (difference (row_of pool.now entry.now.0) todo.now)
        (difference (row_of pool.now entry.now.1) todo.now) →
        AreSides (graph_of set.now.dag.now) set.now.members.now x y result.plus result.minus }
{
    let sides = Sides {
        plus: row_at(pool, entry.0),
        minus: row_at(pool, entry.1),
    };
    let known = risen(&sides, todo, up);
    settled_rows(set, pair, &known.sides, &known.todo)
}

// Writes the rows of a pair that was inside the set before the block joined, where the votes of `todo` may change. The block
// votes +1, or else -1, and those of them are asked that voted against it.
pub(crate) fn asked_entry(
    join: &Joining,
    pool: &mut RowPool,
    pair: u32,
    entry: (RowName, RowName),
    todo: &Row,
    up: bool,
) -> (RowName, RowName)
    requires listed { pair < length (pairs_of join.now.set.dag.now) }
    requires inside { pair < length join.now.set.frozen.now.pluses }
    requires rows { IsOld join.now.set.dag.now join.now.before.now join.now.set.members.now pair pool.old entry }
    requires anew { AreAnew join.now.set.dag.now join.now.set.members.now pair pool.old entry todo.now }
    requires below { (z : ℕ) → IsTrue (has todo.now z) → IsTrue (in_past (graph_of join.now.set.dag.now) z join.now.b) }
    requires vote { (x y : ℕ) → slice_get (pairs_of join.now.set.dag.now) pair ≡ Some (x, y) →
        vote (graph_of join.now.set.dag.now) join.now.set.members.now join.now.b x y ≡ (if up then pos 1 else negsuc 0) }
    ensures rows { IsNew join.now.set.dag.now join.now.before.now join.now.set.members.now pair pool.new entry result }
    ensures step { IsStep pool.old pool.new (Some entry) (Some result) }
{
    let new = rows_anew(&join.set, pool, pair, &entry, todo, Some(up));
    let plus = written(pool, entry.0, &new.plus);
    let minus = written(pool, entry.1, &new.minus);
    (plus, minus)
}
