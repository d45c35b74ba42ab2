//! A plain list of the rows that a pool should have, each with its id, its count and its words.

ghost use Rattle.std.specs.Prelude.{◌≡◌, length};
ghost use Rattle.sp_rows.specs.Pool.{count_of, with_words};

use sp_rows::{RowId, RowPool};
use std::process::Abort;

/// A row as the list has it.
#[derive(Clone, Copy, Drop)]
pub(crate) struct Plain {
    pub(crate) id: RowId,
    pub(crate) count: u32,
    pub(crate) words: [u64; 8],
}

/// Overwrites a row that is counted once.
fn overwrite(pool: &mut RowPool, row: RowId, words: &[u64])
    requires { (count_of pool.old.rows row.0 ≡ 1) × (length words.now ≡ 8) }
    ensures { pool.new.rows ≡ with_words pool.old.rows row.0 words.now }
{
    pool.words_mut(row).copy_from_slice(words);
}

/// Takes a row, which has to be counted once and zero, and writes one of its words.
pub(crate) fn take(rt: &impl Abort, pool: &mut RowPool, number: u32) -> Plain {
    assert!(rt; pool.spare() > 0);
    let id = pool.take();
    assert!(rt; pool.is_live(id) && pool.count(id) == 1);
    assert!(rt; pool.words(id) == [0; 8].as_slice());
    let mut words = [0; 8];
    words[number as usize % 8] = number as u64 + 1;
    overwrite(pool, id, &words);
    Plain {
        id,
        count: 1,
        words,
    }
}

/// Takes a row with these words.
pub(crate) fn take_words(rt: &impl Abort, pool: &mut RowPool, words: [u64; 8]) -> Plain {
    assert!(rt; pool.spare() > 0);
    let id = pool.take_words(&words);
    Plain {
        id,
        count: 1,
        words,
    }
}

/// Counts a row once more, in the pool and in the list.
pub(crate) fn share(rt: &impl Abort, pool: &mut RowPool, row: &mut Plain) {
    assert!(rt; pool.is_live(row.id) && pool.count(row.id) < u32::MAX && row.count < u32::MAX);
    pool.share(row.id);
    row.count += 1;
}

/// Counts a row once less, in the pool and in the list.
pub(crate) fn give(rt: &impl Abort, pool: &mut RowPool, row: &mut Plain) {
    assert!(rt; pool.is_live(row.id) && row.count > 0);
    pool.give(row.id);
    row.count -= 1;
}

/// Whether the pool has a row as the list has it.
fn is_same(pool: &RowPool, row: &Plain) -> bool {
    pool.is_live(row.id)
        && pool.count(row.id) == row.count
        && pool.words(row.id) == row.words.as_slice()
}

/// Compares the pool with the list, and its room with so much.
pub(crate) fn compare(rt: &impl Abort, pool: &RowPool, rows: &[Plain], spare: usize) {
    assert_eq!(rt; (pool.live(), pool.spare()), (rows.len(), spare));
    for row in rows {
        assert!(rt; is_same(pool, row), "row {}", row.id.0);
    }
}
