//! Which votes on an old pair may change when several blocks join the set at once: those of the
//! loose voters in the past of a frozen block that joins, unless they vote as that block does. The two
//! sides are looked at apart. Where there are none, the pair stays as it is. Where these blocks vote for one side alone, the voters
//! that voted for neither vote for it now (`risen` in `reask.rt`), and only those that voted against it are asked.

ghost use Rattle.std.specs.Prelude.{◌≡◌, ◌<◌, ◌≤◌, ◌&&◌, ℕ, List, length, IfSome, IsTrue, IsFalse, slice_get, Some};
ghost use Rattle.sp_bits.specs.Places.{difference};
ghost use Rattle.sp_model.specs.Graph.{has, in_past};
ghost use Rattle.sp_model.specs.Loose.{is_loose};
ghost use Rattle.sp_dag.specs.Numbered.{graph_of, pairs_of};
ghost use Rattle.sp_view.specs.Stored.{count_of, row_of};
ghost use Rattle.sp_view.specs.Seen.{HasAbove};
ghost use Rattle.sp_view.specs.Settled.{AreKept, AreOpen, AreSides};
ghost use Rattle.sp_view.specs.Views.{holds};
ghost use Rattle.sp_view.specs.Voting.{is_voter, opposed};

use crate::asked_by_block::is_none;
use crate::growth::Growth;
use crate::pair_rows::bound_on;
use crate::pasts::pasts_of;
use crate::stored::{RowName, row_at};
use sp_bits::Row;
use sp_dag::Dag;
use sp_rows::RowPool;

// Those of some voters that are loose on a pair.
fn loose_of(dag: &Dag, voters: &Row, pair: u32) -> Row
    requires listed { pair < length (pairs_of dag.now) }
    requires small { (z : ℕ) → IsTrue (has voters.now z) → z < 512 }
    ensures { (x y : ℕ) → slice_get (pairs_of dag.now) pair ≡ Some (x, y) →
        (z : ℕ) → has result z ≡ (has voters.now z && is_loose (graph_of dag.now) z x y) }
{
    if is_none(voters) {
        return *voters;
    }
    // Tells the proof that there are at most 512 blocks.
    let _blocks = dag.len();
    let (x, y) = dag.pair(pair);
    let mut loose = *voters;
    loose.without(&bound_on(dag, x, y));
    loose
}

// The blocks that join among the voters of one side.
fn voting_for(growth: &Growth, voters: &Row) -> Row
    ensures only { (b : ℕ) → IsTrue (has result b) →
        IsTrue (has growth.now.blocks.now b) × IsTrue (has voters.now b) }
    ensures all { (b : ℕ) → IsTrue (has growth.now.blocks.now b) → IsTrue (has voters.now b) → IsTrue (has result b) }
{
    // Tells the proof that there are at most 512 blocks.
    let _blocks = growth.set.dag.len();
    let mut joining = *growth.blocks;
    joining.and_with(voters);
    joining
}

// Those of the loose voters that the blocks which join among the voters of one side have in their pasts, without those of
// that side, which vote so already. Where all of them do, or no such block joins, there are none.
fn opened_by(growth: &Growth, pool: &RowPool, loose: &Row, voters: &Row, side: RowName) -> Row
    requires live { 0 < count_of pool.now side }
    requires small { (z : ℕ) → IsTrue (has loose.now z) → z < 512 }
    ensures covers { (b z : ℕ) → IsTrue (has growth.now.blocks.now b) → IsTrue (has voters.now b) →
        IsTrue (in_past (graph_of growth.now.set.dag.now) z b) → IsTrue (has loose.now z) →
        IsFalse (has (row_of pool.now side) z) → IsTrue (has result z) }
    ensures within { (z : ℕ) → IsTrue (has result z) → IsTrue (has loose.now z) }
    ensures only { (z : ℕ) → IsTrue (has result z) → HasAbove (graph_of growth.now.set.dag.now)
        (λ b. has growth.now.blocks.now b && has voters.now b) z }
{
    let mut open = *loose;
    open.without(&row_at(pool, side));
    if is_none(&open) {
        return open;
    }
    let joining = voting_for(growth, voters);
    if is_none(&joining) {
        return joining;
    }
    open.and_with(&pasts_of(growth.set.dag, &joining));
    open
}

// The voters of an old pair whose votes may change when the set grows. Where there are none, the pair stays as it is.
pub(crate) fn asked_by_growth(
    growth: &Growth,
    pool: &RowPool,
    pair: u32,
    entry: &(RowName, RowName),
) -> Row
    requires listed { pair < length (pairs_of growth.now.set.dag.now) }
    requires inside { pair < length growth.now.set.frozen.now.pluses }
    requires live { (r : ℕ) → holds (Some entry.now) r ≤ count_of pool.now r }
    ensures within { (z : ℕ) → IsTrue (has result z) → IsTrue (has growth.now.set.members.now z) }
    ensures above { (z : ℕ) → IsTrue (has result z) → HasAbove (graph_of growth.now.set.dag.now)
        (λ b. has growth.now.blocks.now b && is_voter growth.now.set.frozen.now pair b) z }
    ensures kept { (x y : ℕ) → slice_get (pairs_of growth.now.set.dag.now) pair ≡ Some (x, y) →
        AreSides (graph_of growth.now.set.dag.now) growth.now.before.now x y
        (row_of pool.now entry.now.0) (row_of pool.now entry.now.1) →
        AreOpen (graph_of growth.now.set.dag.now) growth.now.set.members.now x y (has result)
        × AreKept (graph_of growth.now.set.dag.now) growth.now.set.members.now x y (has result)
        (difference (row_of pool.now entry.now.0) result)
        (difference (row_of pool.now entry.now.1) result) }
{
    // Tells the proof that there are at most 512 blocks, in order.
    let set = &growth.set;
    let _blocks = set.dag.len();
    let loose = loose_of(set.dag, growth.below, pair);
    let mut voters = opened_by(growth, pool, &loose, set.frozen.plus(pair), entry.0);
    let others = opened_by(growth, pool, &loose, set.frozen.minus(pair), entry.1);
    voters.or_with(&others);
    voters
}

// The side, +1 or else -1, for which all those of the blocks that join vote which are frozen on a pair. Where each side has some
// of them, or neither has, there is none.
pub(crate) fn one_side(growth: &Growth, pair: u32) -> Option<bool>
    requires inside { pair < length growth.now.set.frozen.now.pluses }
    ensures { IfSome result (λ up. (b : ℕ) → IsTrue (has growth.now.blocks.now b) →
        IsFalse (has (opposed growth.now.set.frozen.now pair up) b)) }
{
    let none_up = is_none(&voting_for(growth, growth.set.frozen.plus(pair)));
    let none_down = is_none(&voting_for(growth, growth.set.frozen.minus(pair)));
    if none_up == none_down {
        return None;
    }
    Some(none_down)
}
