//! The pairs that a new block brings.

ghost use Rattle.std.specs.Prelude.{◌≡◌, ◌<◌, ◌≤◌, ◌+◌, ◌^◌, ◌++◌, ℕ, not, [], length, map, filter, slice_get, Some, vec_len, vec_capacity};
ghost use Rattle.std.specs.List.{range_with_len};
ghost use Rattle.sp_bits.specs.Places.{has};
ghost use Rattle.sp_dag.specs.Indexed.{AreNewIndexed};

use sp_bits::Row;

// Adds the pairs of block `number` with the blocks before it that aren't in its past, and notes the
// index of each.
pub(crate) fn push_unrelated(
    pairs: &mut Vec<(u16, u16)>,
    indices: &mut Vec<Option<u32>>,
    past: &Row,
    number: u16,
)
    requires small { number < 512 }
    requires few { vec_len pairs.old + number < 2 ^ 32 }
    requires room { vec_len pairs.old + number ≤ vec_capacity pairs.old }
    requires none { indices.old.items ≡ [] }
    requires indices_room { number ≤ vec_capacity indices.old }
    ensures pairs { pairs.new.items ≡ pairs.old.items
        ++ map (λ x. (x, number)) (filter (λ x. not (has past.now x)) (range_with_len 0 number)) }
    ensures indices { AreNewIndexed pairs.old.items pairs.new.items past.now number
        number indices.new.items }
{
    for lower in 0..number {
        if past.test(lower) {
            indices.push_reserved(None);
        } else {
            indices.push_reserved(Some(pairs.len() as u32));
            pairs.push_reserved((lower, number));
        }
    }
}

// How many pairs are left where those are taken off the end that have a block from `count` on.
pub(crate) fn pairs_below(pairs: &[(u16, u16)], count: u16) -> usize
    ensures within { result ≤ length pairs.now }
    ensures last { (i : ℕ) (pair : ℕ × ℕ) → i + 1 ≡ result → slice_get pairs.now i ≡ Some pair →
        pair.1 < count }
    ensures others { (i : ℕ) (pair : ℕ × ℕ) → result ≤ i → slice_get pairs.now i ≡ Some pair →
        count ≤ pair.1 }
{
    let mut left = pairs.len();
    'pairs: while 0 < left && count <= pairs[left - 1].1 {
        left -= 1;
    }
    left
}
