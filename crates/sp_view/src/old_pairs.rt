//! The rows of a pair that was inside a set before a block joined, and what comes to the sum of its votes, where that is known.

ghost use Rattle.std.specs.Prelude.{◌≡◌, ◌≢◌, ◌<◌, ◌+◌, ◌^◌, ℕ, length, IsTrue, IfSome, slice_get, Some, pos};
ghost use Rattle.sp_dag.specs.Numbered.{graph_of, pairs_of};
ghost use Rattle.sp_model.specs.Graph.{has, in_past};
ghost use Rattle.sp_model.specs.Votes.{vote};
ghost use Rattle.sp_view.specs.Gained.{IsGain};
ghost use Rattle.sp_view.specs.Idle.{IsPlace};
ghost use Rattle.sp_view.specs.Keeping.{IsSavingStep};
ghost use Rattle.sp_view.specs.Steps.{AreAnew, IsNew, IsOld};
ghost use Rattle.sp_view.specs.Stored.{count_of};
ghost use Rattle.sp_view.specs.Summed.{IsSum};

use crate::asked_by_block::asked;
use crate::genesis_turn::turned_entry;
use crate::genesis_vote::root_turn;
use crate::joining::Joining;
use crate::own_vote::own_vote;
use crate::reask::asked_entry;
use crate::runs::Place;
use crate::saved::Saved;
use crate::stored::RowName;
use sp_bits::Row;
use sp_rows::RowPool;

// The rows after a block joined, and what came to the sum of the votes, where that is known.
#[derive(Clone, Copy)]
pub(crate) struct Joined {
    pub(crate) plus: RowName,
    pub(crate) minus: RowName,
    pub(crate) gain: Option<i32>,
}

// Such a pair, its rows before the block joined, and the sum of its votes then, where one is kept.
#[derive(Clone, Copy)]
struct OldPair {
    pair: u32,
    entry: (RowName, RowName),
    sum: Option<i32>,
}

// Those of a pair on which the votes of `todo`, which the block has in its past, may change, and on which the block's own vote
// is given, which isn't 0. By the sum before, where one is kept, the vote of genesis is told, if no other vote may change. The
// entry is saved before it changes.
fn opened_entry(
    join: &Joining,
    pool: &mut RowPool,
    saved: &mut Saved,
    known: &OldPair,
    todo: &Row,
    own: i32,
) -> Joined
    requires listed { known.now.pair < length (pairs_of join.now.set.dag.now) }
    requires inside { known.now.pair < length join.now.set.frozen.now.pluses }
    requires rows { IsOld join.now.set.dag.now join.now.before.now join.now.set.members.now known.now.pair
        pool.old known.now.entry }
    requires anew { AreAnew join.now.set.dag.now join.now.set.members.now known.now.pair
        pool.old known.now.entry todo.now }
    requires sum { (x y : ℕ) → slice_get (pairs_of join.now.set.dag.now) known.now.pair ≡ Some (x, y) →
        IsSum (graph_of join.now.set.dag.now) join.now.before.now x y known.now.sum }
    requires few { known.now.pair < length saved.old → (r : ℕ) → count_of pool.old r + 2 < 2 ^ 32 }
    requires below { (z : ℕ) → IsTrue (has todo.now z) → IsTrue (in_past (graph_of join.now.set.dag.now) z join.now.b) }
    requires own { (x y : ℕ) → slice_get (pairs_of join.now.set.dag.now) known.now.pair ≡ Some (x, y) →
        own ≡ vote (graph_of join.now.set.dag.now) join.now.set.members.now join.now.b x y }
    requires some { own ≢ pos 0 }
    ensures rows { IsNew join.now.set.dag.now join.now.before.now join.now.set.members.now known.now.pair
        pool.new known.now.entry (result.plus, result.minus) }
    ensures step { IsSavingStep pool.old pool.new known.now.pair
        (Some known.now.entry) (Some (result.plus, result.minus)) saved.old saved.new }
    ensures gain { (x y : ℕ) → slice_get (pairs_of join.now.set.dag.now) known.now.pair ≡ Some (x, y) →
        IfSome result.gain (IsGain (graph_of join.now.set.dag.now) join.now.before.now join.now.set.members.now x y) }
{
    // Tells the proof that there are at most 512 blocks, from genesis on.
    let _blocks = join.set.dag.len();
    let OldPair { pair, entry, sum } = *known;
    match root_turn(todo, sum, own) {
        Some(turn) => {
            if turn.before == turn.after {
                return Joined {
                    plus: entry.0,
                    minus: entry.1,
                    gain: Some(own),
                };
            }
            saved.save(pool, pair, &entry);
            let (plus, minus) = turned_entry(join, pool, pair, entry, todo, &turn);
            let gain = Some(turn.after - turn.before + own);
            Joined { plus, minus, gain }
        }
        None => {
            saved.save(pool, pair, &entry);
            let up = own > 0;
            let (plus, minus) = asked_entry(join, pool, pair, entry, todo, up);
            Joined {
                plus,
                minus,
                gain: None,
            }
        }
    }
}

// Those of any such pair, by the sum of its votes before, where one is kept.
pub(crate) fn joined_entry(
    join: &Joining,
    pool: &mut RowPool,
    saved: &mut Saved,
    place: &Place,
    entry: (RowName, RowName),
    sum: Option<i32>,
) -> Joined
    requires place { IsPlace join.now.set.dag.now join.now.b place.now.pair place.now.second place.now.end
        place.now.above place.now.free }
    requires listed { place.now.pair < length (pairs_of join.now.set.dag.now) }
    requires inside { place.now.pair < length join.now.set.frozen.now.pluses }
    requires rows { IsOld join.now.set.dag.now join.now.before.now join.now.set.members.now place.now.pair pool.old entry }
    requires few { place.now.pair < length saved.old → (r : ℕ) → count_of pool.old r + 2 < 2 ^ 32 }
    requires sum { (x y : ℕ) → slice_get (pairs_of join.now.set.dag.now) place.now.pair ≡ Some (x, y) →
        IsSum (graph_of join.now.set.dag.now) join.now.before.now x y sum }
    ensures rows { IsNew join.now.set.dag.now join.now.before.now join.now.set.members.now place.now.pair
        pool.new entry (result.plus, result.minus) }
    ensures step { IsSavingStep pool.old pool.new place.now.pair (Some entry) (Some (result.plus, result.minus))
        saved.old saved.new }
    ensures gain { (x y : ℕ) → slice_get (pairs_of join.now.set.dag.now) place.now.pair ≡ Some (x, y) →
        IfSome result.gain (IsGain (graph_of join.now.set.dag.now) join.now.before.now join.now.set.members.now x y) }
{
    let (x, _) = join.set.dag.pair(place.pair);
    let own = own_vote(join, place, x);
    if own == 0 {
        return Joined {
            plus: entry.0,
            minus: entry.1,
            gain: Some(0),
        };
    }
    let pair = place.pair;
    match asked(join, pool, place, x, &entry, own > 0) {
        Some(todo) => {
            let known = OldPair { pair, entry, sum };
            opened_entry(join, pool, saved, &known, &todo, own)
        }
        None => Joined {
            plus: entry.0,
            minus: entry.1,
            gain: Some(own),
        },
    }
}
