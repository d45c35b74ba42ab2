//! The entries of a view when a block joins the set, pair by pair, and the sums of the votes.

ghost use Rattle.std.specs.Prelude.{◌≡◌, ◌<◌, ◌≤◌, ◌+◌, ◌^◌, ℕ, length, slice_get, None, Some, IfSome, vec_len};
ghost use Rattle.sp_dag.specs.Numbered.{graph_of, pairs_of};
ghost use Rattle.sp_view.specs.Stored.{count_of, row_of, spare, live};
ghost use Rattle.sp_view.specs.Gained.{IsGain};
ghost use Rattle.sp_view.specs.Summed.{AreRight, IsSum};
ghost use Rattle.sp_view.specs.Views.{holds, held, entry_at, IsEntry, IsFresh, AreFresh, KeepIds, AreEntries, AreKeptIds};
ghost use Rattle.sp_view.specs.Ends.{NoneFrom};
ghost use Rattle.sp_view.specs.Idle.{IsPlace};
ghost use Rattle.sp_view.specs.Keeping.{IsSavingStep};
ghost use Rattle.sp_view.specs.Saved.{patched, AreCountedWith, IsSaving};
ghost use Rattle.sp_view.specs.Moving.{moves_of, moved_rows};

use crate::asked_by_block::has_both;
use crate::joining::Joining;
use crate::new_pairs::new_entry;
use crate::old_pairs::joined_entry;
use crate::runs::{Place, busy_from, go_on};
use crate::saved::Saved;
use crate::stored::RowName;
use crate::summing::note_sum;
use crate::sums::Sums;
use sp_rows::RowPool;

// The rows of a pair after a block joined, where it has rows, and what came to the sum of its votes, where that is known.
#[derive(Clone, Copy)]
pub(crate) struct Step {
    pub(crate) entry: Option<(RowName, RowName)>,
    pub(crate) gain: Option<i32>,
}

// The entry of a pair after the block joined, by the sum of its votes before, where one is kept.
fn step_entry(
    join: &Joining,
    pool: &mut RowPool,
    saved: &mut Saved,
    place: &Place,
    entry: Option<(RowName, RowName)>,
    sum: Option<i32>,
) -> Step
    requires place { IsPlace join.now.set.dag.now join.now.b place.now.pair place.now.second place.now.end
        place.now.above place.now.free }
    requires listed { place.now.pair < length (pairs_of join.now.set.dag.now) }
    requires inside { IfSome entry (λ _. place.now.pair < length join.now.set.frozen.now.pluses) }
    requires live { (r : ℕ) → holds entry r ≤ count_of pool.old r }
    requires entry { (x y : ℕ) → slice_get (pairs_of join.now.set.dag.now) place.now.pair ≡ Some (x, y) →
        IsEntry (graph_of join.now.set.dag.now) join.now.before.now x y pool.old entry }
    requires room { (x y : ℕ) → slice_get (pairs_of join.now.set.dag.now) place.now.pair ≡ Some (x, y) →
        moves_of (graph_of join.now.set.dag.now) join.now.before.now join.now.set.members.now x y ≤ spare pool.old }
    requires few { place.now.pair < length saved.old → (r : ℕ) → count_of pool.old r + 2 < 2 ^ 32 }
    requires sum { (x y : ℕ) → slice_get (pairs_of join.now.set.dag.now) place.now.pair ≡ Some (x, y) →
        IsSum (graph_of join.now.set.dag.now) join.now.before.now x y sum }
    ensures entry { (x y : ℕ) → slice_get (pairs_of join.now.set.dag.now) place.now.pair ≡ Some (x, y) →
        IsEntry (graph_of join.now.set.dag.now) join.now.set.members.now x y pool.new result.entry }
    ensures gain { (x y : ℕ) → slice_get (pairs_of join.now.set.dag.now) place.now.pair ≡ Some (x, y) →
        IfSome result.gain (IsGain (graph_of join.now.set.dag.now) join.now.before.now join.now.set.members.now x y) }
    ensures kept { (x y : ℕ) → slice_get (pairs_of join.now.set.dag.now) place.now.pair ≡ Some (x, y) →
        KeepIds (graph_of join.now.set.dag.now) join.now.before.now join.now.set.members.now x y entry result.entry }
    ensures step { IsSavingStep pool.old pool.new place.now.pair entry result.entry saved.old saved.new }
    ensures fresh { entry ≡ None → IfSome result.entry (IsFresh pool.old pool.new) }
{
    match entry {
        Some(rows) => {
            let joined = joined_entry(join, pool, saved, place, rows, sum);
            Step {
                entry: Some((joined.plus, joined.minus)),
                gain: joined.gain,
            }
        }
        None => {
            // Tells the proof that there are at most 512 blocks.
            let set = &join.set;
            let _blocks = set.dag.len();
            let (x, y) = set.dag.pair(place.pair);
            if has_both(set.members, x, y) {
                let rows = new_entry(set, pool, place.pair);
                Step {
                    entry: Some(rows),
                    gain: None,
                }
            } else {
                Step {
                    entry: None,
                    gain: None,
                }
            }
        }
    }
}

// The entries after the block joined, behind which no pair is inside the set, and those of the pairs' sums that are kept. Each
// that changes and that may be saved is saved before.
pub(crate) fn join_entries(
    join: &Joining,
    pool: &mut RowPool,
    entries: &mut Vec<Option<(RowName, RowName)>>,
    sums: &mut Sums,
    saved: &mut Saved,
)
    requires long { vec_len entries.old ≤ length (pairs_of join.now.set.dag.now) }
    requires none { NoneFrom join.now.set.dag.now join.now.set.members.now (vec_len entries.old) }
    requires inside { (i x y : ℕ) → slice_get (pairs_of join.now.set.dag.now) i ≡ Some (x, y) →
        IfSome (entry_at entries.old.items i) (λ _. y < join.now.set.frozen.now.blocks) }
    requires live { (r : ℕ) → held saved.old r + held entries.old.items r ≤ count_of pool.old r }
    requires once { (r : ℕ) → held entries.old.items r ≤ 1 }
    requires entry { AreEntries join.now.set.dag.now join.now.before.now pool.old entries.old.items }
    requires room { moved_rows (graph_of join.now.set.dag.now) join.now.before.now join.now.set.members.now
        (pairs_of join.now.set.dag.now) ≤ spare pool.old }
    requires sums { AreRight join.now.set.dag.now join.now.before.now sums.old }
    requires saved { IsSaving saved.old entries.old.items }
    requires few { 0 < length saved.old → (r : ℕ) → count_of pool.old r < 2 ^ 31 }
    ensures long { vec_len entries.new ≡ vec_len entries.old }
    ensures entry { AreEntries join.now.set.dag.now join.now.set.members.now pool.new entries.new.items }
    ensures kept { AreKeptIds join.now.set.dag.now join.now.before.now join.now.set.members.now
        entries.old.items entries.new.items }
    ensures counts { AreCountedWith pool.old pool.new
        entries.old.items saved.old entries.new.items saved.new }
    ensures others { (r : ℕ) → held entries.old.items r < count_of pool.old r →
        row_of pool.new r ≡ row_of pool.old r }
    ensures once { (r : ℕ) → held entries.new.items r ≤ 1 }
    ensures fresh { AreFresh entries.old.items entries.new.items pool.old pool.new }
    ensures live { live pool.new ≤ live pool.old
        + moved_rows (graph_of join.now.set.dag.now) join.now.before.now join.now.set.members.now
        (pairs_of join.now.set.dag.now) }
    ensures sums { AreRight join.now.set.dag.now join.now.set.members.now sums.new }
    ensures as_long { length sums.new ≡ length sums.old }
    ensures patched { patched saved.new entries.new.items ≡ patched saved.old entries.old.items }
    ensures saved_rows { (r : ℕ) → 0 < held (patched saved.old entries.old.items) r →
        row_of pool.new r ≡ row_of pool.old r }
{
    // Tells the proof that there are at most 130,816 pairs.
    let set = &join.set;
    let _pairs = set.dag.pair_count();
    let end = entries.len() as u32;
    let mut place = busy_from(set.dag, set.members, join.b, 0);
    'pairs: while place.pair < end {
        let pair = place.pair;
        let entry = entries[pair as usize];
        let sum = sums.get(pair);
        let step = step_entry(join, pool, saved, &place, entry, sum);
        entries[pair as usize] = step.entry;
        note_sum(join, pool, pair, &step, sums);
        go_on(set.dag, set.members, join.b, &mut place);
    }
}
