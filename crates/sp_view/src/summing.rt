//! The sum of the votes on one pair, when a block joins the set: where it is known what comes to it, that is added, and
//! elsewhere four counts tell it.

ghost use Rattle.std.specs.Prelude.{◌≡◌, ◌≢◌, ◌<◌, ◌≤◌, ℕ, length, IfSome, slice_get, Some};
ghost use Rattle.sp_dag.specs.Numbered.{graph_of, pairs_of};
ghost use Rattle.sp_view.specs.Stored.{count_of};
ghost use Rattle.sp_view.specs.Gained.{IsGain};
ghost use Rattle.sp_view.specs.Summed.{IsSum};
ghost use Rattle.sp_view.specs.Sums.{sum_of};
ghost use Rattle.sp_view.specs.Views.{holds, IsEntry};

use crate::entries::Step;
use crate::joining::Joining;
use crate::stored::row_at;
use crate::sums::Sums;
use crate::tally::tally;
use sp_rows::RowPool;

// The sum of a pair's votes after the block joined, from that before. Where the pair isn't inside the set it is any number.
fn sum_after(join: &Joining, pool: &RowPool, pair: u32, step: &Step, sum: i32) -> i32
    requires listed { pair < length (pairs_of join.now.set.dag.now) }
    requires live { (r : ℕ) → holds step.now.entry r ≤ count_of pool.now r }
    requires entry { (x y : ℕ) → slice_get (pairs_of join.now.set.dag.now) pair ≡ Some (x, y) →
        IsEntry (graph_of join.now.set.dag.now) join.now.set.members.now x y pool.now step.now.entry }
    requires gain { (x y : ℕ) → slice_get (pairs_of join.now.set.dag.now) pair ≡ Some (x, y) →
        IfSome step.now.gain (IsGain (graph_of join.now.set.dag.now) join.now.before.now join.now.set.members.now x y) }
    requires sum { (x y : ℕ) → slice_get (pairs_of join.now.set.dag.now) pair ≡ Some (x, y) →
        IsSum (graph_of join.now.set.dag.now) join.now.before.now x y (Some sum) }
    ensures { (x y : ℕ) → slice_get (pairs_of join.now.set.dag.now) pair ≡ Some (x, y) →
        IsSum (graph_of join.now.set.dag.now) join.now.set.members.now x y (Some result) }
{
    // Tells the proof that there are at most 512 blocks, in order.
    let _blocks = join.set.dag.len();
    let Some((plus, minus)) = step.entry else {
        return sum;
    };
    if let Some(gain) = step.gain {
        return sum + gain;
    }
    let set = &join.set;
    tally(
        set.members,
        set.frozen.plus(pair),
        set.frozen.minus(pair),
        &row_at(pool, plus),
        &row_at(pool, minus),
    )
}

// Writes the sum of a pair after the block joined, where sums are kept.
pub(crate) fn note_sum(join: &Joining, pool: &RowPool, pair: u32, step: &Step, sums: &mut Sums)
    requires listed { pair < length (pairs_of join.now.set.dag.now) }
    requires live { (r : ℕ) → holds step.now.entry r ≤ count_of pool.now r }
    requires entry { (x y : ℕ) → slice_get (pairs_of join.now.set.dag.now) pair ≡ Some (x, y) →
        IsEntry (graph_of join.now.set.dag.now) join.now.set.members.now x y pool.now step.now.entry }
    requires gain { (x y : ℕ) → slice_get (pairs_of join.now.set.dag.now) pair ≡ Some (x, y) →
        IfSome step.now.gain (IsGain (graph_of join.now.set.dag.now) join.now.before.now join.now.set.members.now x y) }
    requires sum { (x y : ℕ) → slice_get (pairs_of join.now.set.dag.now) pair ≡ Some (x, y) →
        IsSum (graph_of join.now.set.dag.now) join.now.before.now x y (slice_get sums.old pair) }
    ensures sum { (x y : ℕ) → slice_get (pairs_of join.now.set.dag.now) pair ≡ Some (x, y) →
        IsSum (graph_of join.now.set.dag.now) join.now.set.members.now x y (slice_get sums.new pair) }
    ensures others { (j : ℕ) → j ≢ pair → slice_get sums.new j ≡ slice_get sums.old j }
    ensures as_long { length sums.new ≡ length sums.old }
{
    let Some(sum) = sums.get(pair) else {
        return;
    };
    sums.set(pair, sum_after(join, pool, pair, step, sum));
}
