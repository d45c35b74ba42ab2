//! How a block that joins a set votes on a pair inside it. Where it has one block of the pair in its past, it votes
//! for that one, and where it has neither, for none. So the two frozen rows are read only where it has both.

ghost use Rattle.std.specs.Prelude.{◌≡◌, ◌<◌, ℕ, length, IsTrue, slice_get, Some};
ghost use Rattle.sp_model.specs.Votes.{vote};
ghost use Rattle.sp_dag.specs.Numbered.{graph_of, pairs_of};
ghost use Rattle.sp_view.specs.Changed.{is_inside};
ghost use Rattle.sp_view.specs.Idle.{IsPlace};

use crate::joining::Joining;
use crate::runs::Place;
use crate::tally::vote_of;

// The vote of a block that joins on the pair of a place, whose first block is given: -1 for that one, +1 for the second, and 0
// for neither.
pub(crate) fn own_vote(join: &Joining, place: &Place, x: u16) -> i32
    requires place { IsPlace join.now.set.dag.now join.now.b place.now.pair place.now.second place.now.end
        place.now.above place.now.free }
    requires pair { slice_get (pairs_of join.now.set.dag.now) place.now.pair ≡ Some (x, place.now.second) }
    requires inside { place.now.pair < length join.now.set.frozen.now.pluses }
    ensures { (x y : ℕ) → slice_get (pairs_of join.now.set.dag.now) place.now.pair ≡ Some (x, y) →
        IsTrue (is_inside join.now.before.now (x, y)) →
        result ≡ vote (graph_of join.now.set.dag.now) join.now.set.members.now join.now.b x y }
{
    // Tells the proof that there are at most 512 blocks, in order.
    let set = &join.set;
    let _blocks = set.dag.len();
    let first = set.dag.in_past(x, join.b);
    if !place.above {
        return if first { -1 } else { 0 };
    }
    if !first {
        return 1;
    }
    vote_of(
        join.b,
        set.frozen.plus(place.pair),
        set.frozen.minus(place.pair),
    )
}
