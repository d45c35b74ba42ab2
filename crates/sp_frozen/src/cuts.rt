//! What is left of the rows where the last blocks are taken back.

ghost use Rattle.std.specs.Prelude.{◌≡◌, ◌<◌, ◌≤◌, ◌+◌, ℕ, [], All, length, vec_len, slice_get, slice_index_or, Some};
ghost use Rattle.sp_bits.specs.Places.{members_below, IsRow};
ghost use Rattle.sp_dag.specs.Numbered.{pairs_of};

use sp_bits::Row;
use sp_dag::Dag;

// How many of the first pairs are left where those are taken off the end that have a block from
// `count` on.
pub(crate) fn pairs_below(dag: &Dag, pairs: usize, count: u16) -> usize
    requires { pairs ≤ length (pairs_of dag.now) }
    ensures within { result ≤ pairs }
    ensures last { (i : ℕ) (pair : ℕ × ℕ) → i + 1 ≡ result →
        slice_get (pairs_of dag.now) i ≡ Some pair → pair.1 < count }
    ensures others { (i : ℕ) (pair : ℕ × ℕ) → result ≤ i → i < pairs →
        slice_get (pairs_of dag.now) i ≡ Some pair → count ≤ pair.1 }
{
    // Tells the proof that there are at most 130,816 pairs.
    let _pairs = dag.pair_count();
    let mut left = pairs;
    'pairs: while 0 < left && count <= dag.pair(left as u32 - 1).1 {
        left -= 1;
    }
    left
}

// Takes the blocks from `count` on out of each row.
pub(crate) fn cut_rows(rows: &mut Vec<Row>, count: u16)
    ensures len { vec_len rows.new ≡ vec_len rows.old }
    ensures each { (i : ℕ) → i < vec_len rows.old → slice_index_or rows.new.items i []
        ≡ members_below (slice_index_or rows.old.items i []) count }
    ensures rows { All IsRow rows.new.items }
{
    'rows: for i in 0..rows.len() {
        let row = &mut rows[i];
        row.clear_from(count);
        // Tells the proof what a row is.
        let _count = row.count();
    }
}
