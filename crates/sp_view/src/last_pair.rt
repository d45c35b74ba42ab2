//! Where the pairs inside a set end. A view has no entries behind that, so that one of a few old blocks is
//! short, however many pairs the graph has.

ghost use Rattle.std.specs.Prelude.{◌≡◌, ◌<◌, ◌≤◌, ◌+◌, ℕ, true, false, length, slice_get, Some, vec_len, vec_capacity};
ghost use Rattle.sp_dag.specs.Numbered.{pairs_of};
ghost use Rattle.sp_view.specs.Changed.{is_inside};
ghost use Rattle.sp_view.specs.Ends.{IsEnd};
ghost use Rattle.sp_view.specs.Views.{entry_at, held};

use crate::asked_by_block::has_both;
use crate::stored::RowName;
use sp_bits::Row;
use sp_dag::Dag;

// Whether a pair is inside a set.
fn has_pair(dag: &Dag, set: &Row, pair: u32) -> bool
    requires { pair < length (pairs_of dag.now) }
    ensures { (x y : ℕ) → slice_get (pairs_of dag.now) pair ≡ Some (x, y) →
        result ≡ is_inside set.now (x, y) }
{
    // Tells the proof that there are at most 512 blocks.
    let _blocks = dag.len();
    let (x, y) = dag.pair(pair);
    has_both(set, x, y)
}

// The number behind the last pair inside a set among those from `start` up to `stop`, and `start` where none is inside.
fn end_in(dag: &Dag, set: &Row, start: u32, stop: u32) -> u32
    requires order { start ≤ stop }
    requires within { stop ≤ length (pairs_of dag.now) }
    ensures from { start ≤ result }
    ensures within { result ≤ stop }
    ensures none { (i x y : ℕ) → result ≤ i → i < stop →
        slice_get (pairs_of dag.now) i ≡ Some (x, y) → is_inside set.now (x, y) ≡ false }
    ensures last { (i x y : ℕ) → start ≤ i → i + 1 ≡ result →
        slice_get (pairs_of dag.now) i ≡ Some (x, y) → is_inside set.now (x, y) ≡ true }
{
    // Tells the proof that there are at most 130,816 pairs.
    let _pairs = dag.pair_count();
    'pairs: for gone in 0..stop - start {
        let end = stop - gone;
        if has_pair(dag, set, end - 1) {
            return end;
        }
    }
    start
}

// The number behind the last pair inside a set, from the least one on. It takes a few steps for each block, and two tests
// for each pair behind that whose higher block is in the set.
pub(crate) fn end_of(dag: &Dag, set: &Row, least: u32) -> u32
    requires { least ≤ length (pairs_of dag.now) }
    ensures { IsEnd dag.now set.now least result }
{
    let count = dag.len();
    'runs: for gone in 0..count {
        let block = count - gone - 1;
        let stop = dag.first_pair(block + 1);
        if stop <= least {
            return least;
        }
        if set.test(block) {
            let start = least.max(dag.first_pair(block));
            let end = end_in(dag, set, start, stop);
            if start < end {
                return end;
            }
        }
    }
    least
}

// Adds entries without rows up to a length.
pub(crate) fn grow(entries: &mut Vec<Option<(RowName, RowName)>>, long: usize)
    requires short { vec_len entries.old ≤ long }
    requires room { long ≤ vec_capacity entries.old }
    ensures long { vec_len entries.new ≡ long }
    ensures capacity { vec_capacity entries.new ≡ vec_capacity entries.old }
    ensures entry { (i : ℕ) → entry_at entries.new.items i ≡ entry_at entries.old.items i }
    ensures held { (r : ℕ) → held entries.new.items r ≡ held entries.old.items r }
{
    'entries: for _ in entries.len()..long {
        entries.push_reserved(None);
    }
}
