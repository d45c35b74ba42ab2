//! The rows that a new block brings and changes: its past from those of its parents, and the
//! futures of the blocks in it.

ghost use Rattle.std.specs.Prelude.{◌≡◌, ◌<◌, ◌≤◌, ◌||◌, ◌==◌, ℕ, [], length, All, slice_index_or, vec_len, vec_capacity, if◌then◌else◌};
ghost use Rattle.sp_bits.specs.Places.{has, members_below, places_where};
ghost use Rattle.sp_dag.specs.Rows.{is_reached};

use sp_bits::Row;

// The row of the past of a block with these parents, in about 512 steps for each parent.
pub(crate) fn row_of(pasts: &[Row], parents: &[u16]) -> Row
    requires small { length pasts.now ≤ 512 }
    requires within { All (λ p. p < length pasts.now) parents.now }
    ensures { result ≡ places_where (is_reached pasts.now parents.now) }
{
    let mut row = Row::empty();
    for parent in parents {
        row.or_with(&pasts[*parent as usize]);
        row.set(*parent);
    }
    row
}

// Puts block `number` into the row of each block in its past; all other rows stay. The rows are the
// futures of the blocks, or the blocks together with their futures: both change alike.
pub(crate) fn set_in_futures(futures: &mut Vec<Row>, past: &Row, number: u16)
    requires small { number < 512 }
    requires long { vec_len futures.old ≡ number }
    ensures len { vec_len futures.new ≡ number }
    ensures capacity { vec_capacity futures.new ≡ vec_capacity futures.old }
    ensures rows { (a : ℕ) → a < number → slice_index_or futures.new.items a []
        ≡ (if has past.now a
        then places_where (λ w. has (slice_index_or futures.old.items a []) w || (w == number))
        else slice_index_or futures.old.items a []) }
{
    for earlier in 0..number {
        if past.test(earlier) {
            futures[earlier as usize].set(number);
        }
    }
}

// Takes the blocks from `count` on out of all rows of futures.
pub(crate) fn cut_futures(futures: &mut Vec<Row>, count: u16)
    ensures len { vec_len futures.new ≡ vec_len futures.old }
    ensures rows { (a : ℕ) → a < vec_len futures.old → slice_index_or futures.new.items a []
        ≡ members_below (slice_index_or futures.old.items a []) count }
{
    'futures: for earlier in 0..futures.len() {
        futures[earlier].clear_from(count);
    }
}
