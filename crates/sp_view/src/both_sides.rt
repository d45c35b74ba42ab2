//! What the loose voters of a new pair see: those that have frozen voters of one side above them, and none of
//! the other side, vote so, and those that have neither vote for nobody. Only those that have both are asked,
//! and of these none where they all have all frozen voters above them, and no other loose voter votes.

ghost use Rattle.std.specs.Prelude.{◌≡◌, ◌<◌, ◌&&◌, [], ℕ, length, IsTrue, slice_get, Some};
ghost use Rattle.sp_model.specs.Graph.{has, in_past};
ghost use Rattle.sp_model.specs.Loose.{is_loose};
ghost use Rattle.sp_dag.specs.Numbered.{graph_of, pairs_of};
ghost use Rattle.sp_view.specs.Seen.{HasAbove};
ghost use Rattle.sp_view.specs.Settled.{AreKept, AreOpen};

use crate::asked_by_block::is_none;
use crate::pair_rows::Sides;
use crate::pasts::pasts_of;
use crate::voting::Voting;
use sp_bits::Row;
use sp_dag::Dag;

// The loose voters of a pair whose votes are known, by their votes, and those whose votes are open.
#[derive(Clone, Copy)]
pub(crate) struct Known {
    pub(crate) sides: Sides,
    pub(crate) todo: Row,
}

// Those of the loose voters that have members above them that vote for one side.
fn seen_by(dag: &Dag, members: &Row, voters: &Row, loose: &Row) -> Row
    requires { (z : ℕ) → IsTrue (has members.now z) → z < length dag.now.parents }
    ensures covers { (z : ℕ) → IsTrue (has loose.now z) →
        HasAbove (graph_of dag.now) (λ b. has members.now b && has voters.now b) z →
        IsTrue (has result z) }
    ensures only { (z : ℕ) → IsTrue (has result z) → IsTrue (has loose.now z)
        × HasAbove (graph_of dag.now) (λ b. has members.now b && has voters.now b) z }
{
    // Tells the proof that there are at most 512 blocks.
    let _blocks = dag.len();
    let mut casting = *members;
    casting.and_with(voters);
    let mut seen = pasts_of(dag, &casting);
    seen.and_with(loose);
    seen
}

// The votes of a new pair's loose voters, by what they see. It takes three steps over rows for each frozen
// voter of a side that isn't in the past of another one.
pub(crate) fn known_votes(set: &Voting, pair: u32, loose: &Row) -> Known
    requires inside { pair < length set.now.frozen.now.pluses }
    ensures within { (z : ℕ) → IsTrue (has result.todo z) → IsTrue (has loose.now z) }
    ensures rows { (x y : ℕ) → slice_get (pairs_of set.now.dag.now) pair ≡ Some (x, y) →
        ((z : ℕ) → has loose.now z ≡ (has set.now.members.now z && is_loose (graph_of set.now.dag.now) z x y)) →
        AreOpen (graph_of set.now.dag.now) set.now.members.now x y (has result.todo)
        × AreKept (graph_of set.now.dag.now) set.now.members.now x y (has result.todo)
        result.sides.plus result.sides.minus }
{
    // Tells the proof that there are at most 512 blocks, in order.
    let _blocks = set.dag.len();
    let plus = seen_by(set.dag, set.members, set.frozen.plus(pair), loose);
    let minus = seen_by(set.dag, set.members, set.frozen.minus(pair), loose);
    let mut todo = plus;
    todo.and_with(&minus);
    let mut sides = Sides { plus, minus };
    sides.plus.without(&todo);
    sides.minus.without(&todo);
    Known { sides, todo }
}

// Whether no vote of a loose voter is known, and all open voters are in the past of both blocks of the pair.
fn are_told(dag: &Dag, x: u16, y: u16, known: &Known) -> bool
    requires x_in { x < length dag.now.parents }
    requires y_in { y < length dag.now.parents }
    ensures plus { IsTrue result → known.now.sides.plus ≡ [] }
    ensures minus { IsTrue result → known.now.sides.minus ≡ [] }
    ensures below_x { IsTrue result → (z : ℕ) → IsTrue (has known.now.todo z) →
        IsTrue (in_past (graph_of dag.now) z x) }
    ensures below_y { IsTrue result → (z : ℕ) → IsTrue (has known.now.todo z) →
        IsTrue (in_past (graph_of dag.now) z y) }
{
    // Tells the proof that there are at most 512 blocks, in order.
    let _blocks = dag.len();
    if !known.todo.within(dag.past(x)) {
        return false;
    }
    if !known.todo.within(dag.past(y)) {
        return false;
    }
    is_none(&known.sides.plus) && is_none(&known.sides.minus)
}

// The votes of a new pair's loose voters, from those that are known. Where none of them is known to vote, and
// each open one has all frozen voters above it, the open ones vote as most of these.
pub(crate) fn told(set: &Voting, pair: u32, x: u16, y: u16, known: &Known) -> Known
    requires pair { slice_get (pairs_of set.now.dag.now) pair ≡ Some (x, y) }
    requires inside { pair < length set.now.frozen.now.pluses }
    requires x_in { x < length set.now.dag.now.parents }
    requires y_in { y < length set.now.dag.now.parents }
    ensures within { (z : ℕ) → IsTrue (has result.todo z) → IsTrue (has known.now.todo z) }
    ensures rows { AreOpen (graph_of set.now.dag.now) set.now.members.now x y (has known.now.todo) →
        AreKept (graph_of set.now.dag.now) set.now.members.now x y (has known.now.todo)
        known.now.sides.plus known.now.sides.minus →
        AreOpen (graph_of set.now.dag.now) set.now.members.now x y (has result.todo)
        × AreKept (graph_of set.now.dag.now) set.now.members.now x y (has result.todo)
        result.sides.plus result.sides.minus }
{
    // Tells the proof that there are at most 512 blocks, in order.
    let _blocks = set.dag.len();
    if !are_told(set.dag, x, y, known) {
        return *known;
    }
    let ups = set.members.count_and(set.frozen.plus(pair));
    let downs = set.members.count_and(set.frozen.minus(pair));
    let none = Row::empty();
    if ups > downs {
        return Known {
            sides: Sides {
                plus: known.todo,
                minus: none,
            },
            todo: none,
        };
    }
    if ups < downs {
        return Known {
            sides: Sides {
                plus: none,
                minus: known.todo,
            },
            todo: none,
        };
    }
    Known {
        sides: Sides {
            plus: none,
            minus: none,
        },
        todo: none,
    }
}
