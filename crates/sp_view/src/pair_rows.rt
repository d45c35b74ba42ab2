//! The loose voters of one pair in a set. Rows alone are spoken of here: where they are kept is the view's.

ghost use Rattle.std.specs.Prelude.{◌≡◌, ◌<◌, not, ℕ, length, IsTrue, slice_get, Some};
ghost use Rattle.sp_bits.specs.Places.{places_where};
ghost use Rattle.sp_model.specs.Graph.{has};
ghost use Rattle.sp_model.specs.Loose.{is_loose};
ghost use Rattle.sp_dag.specs.Numbered.{graph_of, pairs_of};
ghost use Rattle.sp_view.specs.Settled.{AreKept, AreOpen, AreSides};

use crate::both_sides::{known_votes, told};
use crate::settle::settle;
use crate::voting::Voting;
use sp_bits::Row;
use sp_dag::Dag;

// The loose voters of a pair that vote +1, and those that vote -1.
#[derive(Clone, Copy)]
pub(crate) struct Sides {
    pub(crate) plus: Row,
    pub(crate) minus: Row,
}

// The blocks that are bound on a pair: both of it and all that have one in their past.
pub(crate) fn bound_on(dag: &Dag, x: u16, y: u16) -> Row
    requires x_in { x < length dag.now.parents }
    requires y_in { y < length dag.now.parents }
    ensures { result ≡ places_where (λ z. not (is_loose (graph_of dag.now) z x y)) }
{
    let mut bound = *dag.closed(x);
    bound.or_with(dag.closed(y));
    bound
}

// The loose members that vote +1 and -1 on a pair, by the frozen voters and the kept loose ones,
// where the votes of `todo` alone are open.
pub(crate) fn settled_rows(set: &Voting, pair: u32, kept: &Sides, todo: &Row) -> Sides
    requires inside { pair < length set.now.frozen.now.pluses }
    requires within { (z : ℕ) → IsTrue (has todo.now z) → IsTrue (has set.now.members.now z) }
    ensures rows { (x y : ℕ) → slice_get (pairs_of set.now.dag.now) pair ≡ Some (x, y) →
        AreOpen (graph_of set.now.dag.now) set.now.members.now x y (has todo.now) →
        AreKept (graph_of set.now.dag.now) set.now.members.now x y (has todo.now)
        kept.now.plus kept.now.minus →
        AreSides (graph_of set.now.dag.now) set.now.members.now x y result.plus result.minus }
{
    // Tells the proof that the blocks stand in order.
    let _blocks = set.dag.len();
    let frozen_plus = set.frozen.plus(pair);
    let frozen_minus = set.frozen.minus(pair);
    let mut plus = *frozen_plus;
    plus.and_with(set.members);
    plus.or_with(&kept.plus);
    let mut minus = *frozen_minus;
    minus.and_with(set.members);
    minus.or_with(&kept.minus);
    settle(set.dag, todo, &mut plus, &mut minus);
    plus.without(frozen_plus);
    minus.without(frozen_minus);
    Sides { plus, minus }
}

// The loose voters of a new pair. It takes a few passes over rows for each of them that sees both sides, and for
// each frozen voter that isn't in the past of another one of its side.
pub(crate) fn new_rows(set: &Voting, pair: u32) -> Sides
    requires listed { pair < length (pairs_of set.now.dag.now) }
    requires inside { pair < length set.now.frozen.now.pluses }
    ensures { (x y : ℕ) → slice_get (pairs_of set.now.dag.now) pair ≡ Some (x, y) →
        AreSides (graph_of set.now.dag.now) set.now.members.now x y result.plus result.minus }
{
    let (x, y) = set.dag.pair(pair);
    let mut loose = *set.members;
    loose.without(&bound_on(set.dag, x, y));
    let seen = known_votes(set, pair, &loose);
    let known = told(set, pair, x, y, &seen);
    settled_rows(set, pair, &known.sides, &known.todo)
}
