//! The blocks below some others. What stands here serves the pairs that several blocks join at once, and the
//! new ones, of whose loose voters only those are asked that have frozen ones of both sides above them.

ghost use Rattle.std.specs.Prelude.{◌<◌, ℕ, length, IsTrue};
ghost use Rattle.sp_model.specs.Graph.{has, in_past};
ghost use Rattle.sp_dag.specs.Numbered.{graph_of};
ghost use Rattle.sp_view.specs.Seen.{HasAbove};

use sp_bits::Row;
use sp_dag::Dag;

// The blocks in the past of some others. It takes three steps over rows for each of these that isn't
// in the past of another one.
pub(crate) fn pasts_of(dag: &Dag, blocks: &Row) -> Row
    requires { (b : ℕ) → IsTrue (has blocks.now b) → b < length dag.now.parents }
    ensures covers { (b z : ℕ) → IsTrue (has blocks.now b) →
        IsTrue (in_past (graph_of dag.now) z b) → IsTrue (has result z) }
    ensures only { (z : ℕ) → IsTrue (has result z) →
        HasAbove (graph_of dag.now) (has blocks.now) z }
    ensures small { (z : ℕ) → IsTrue (has result z) → z < 512 }
{
    // Tells the proof that there are at most 512 blocks, in order.
    let _blocks = dag.len();
    let mut below = Row::empty();
    let mut left = *blocks;
    let mut next = left.highest();
    'pasts: loop {
        let Some(block) = next else { return below };
        let past = dag.past(block);
        below.or_with(past);
        left.without(past);
        next = left.highest_below(block);
    }
}
