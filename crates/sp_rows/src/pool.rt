//! The pool of counted rows: which rows there are, how often each is counted, and how many more can be taken.

ghost use Rattle.std.specs.Prelude.{◌≡◌, ◌+◌, ◌-◌, ◌*◌, ◌^◌, ◌<◌, ◌≤◌, ◌↔◌, [], ℕ, ◌++◌, length, replicate, IsTrue, IsOk, OnOk, OnErr};
ghost use Rattle.std.specs.Borrow.{sem};
ghost use Rattle.std.specs.Vec.{vec_len, vec_capacity};
ghost use Rattle.sp_rows.specs.Pool.{count_of, words_of, with_count, taken, taken_with, given, IsLive, AreRows};

use crate::chunks::Chunks;
use crate::free::Free;
use sp_ids::Memory;
use std::alloc::Global;
use std::marker::Model;

// Of so many rows one at least was passed by and is free before the lowest of these is handed out again, so that a row that
// is given back costs a bounded number of steps.
const LOOSE: usize = 64;

/// A row of a pool, by its number. It means nothing in another pool.
#[derive(Clone, Copy, Debug, PartialEq, Eq)]
pub struct RowId(pub u32);

/// Rows of eight words, each with how often it is counted. Contracts see the live rows, which are
/// counted at least once, by ascending id, and how many more can be taken. No row's words move.
pub struct RowPool {
    chunks: Chunks,
    // How often each row is counted; a free one isn't.
    counts: Vec<u32>,
    free: Free,
    spare: usize,
    live: usize,
    alloc: Global,
}

// Written out, so that where a pool is let go there is one call.
impl Drop for RowPool {
    fn drop(self) {
        let RowPool {
            chunks: _,
            counts: _,
            free: _,
            spare: _,
            live: _,
            alloc: _,
        } = self;
    }
}

impl Model for RowPool {
    ghost use Rattle.sp_rows.specs.Pool.{Pool};

    ghost Value = { Pool };

    ghost use Rattle.sp_rows.specs.Kept.{words_at, live_rows, IsKept};

    ghost view = { λ p. record { rows = live_rows (words_at p.chunks) 0 p.counts.items; spare = p.spare } };

    ghost invariant = { λ p. IsKept p.chunks p.counts.items p.free p.spare p.live };
}

impl RowPool {
    ghost use Rattle.sp_rows.specs.PoolLends.{lends_words};

    /// A pool without rows. It keeps the allocator, and takes no memory yet.
    pub fn new(alloc: Global) -> RowPool
        ensures rows { result.rows ≡ [] }
        ensures spare { result.spare ≡ 0 }
    {
        RowPool {
            chunks: Chunks::new(alloc),
            counts: Vec::new(alloc),
            free: Free::new(),
            spare: 0,
            live: 0,
            alloc,
        }
    }

    /// Makes room, so that at least so many more rows can be taken, in time in proportion to the
    /// rows that are new and those that there are, whose counts may move. Where more than a 64th of
    /// all rows were given back and passed by since, the next calls of `take` begin at the lowest of
    /// them. Memory is answered where it was refused; the pool is then as it was.
    pub fn reserve(&mut self, n: u32) -> Result<(), Memory>
        requires { length self.old.rows + n ≤ 2 ^ 31 }
        ensures ok { OnOk result (n ≤ self.new.spare) }
        ensures err { OnErr result (self.new ≡ self.old) }
        ensures enough { n ≤ self.old.spare → (IsOk result × (self.new ≡ self.old)) }
        ensures rows { self.new.rows ≡ self.old.rows }
        ensures spare { self.old.spare ≤ self.new.spare }
    {
        self.begin_again();
        if n as usize <= self.spare {
            return Ok(());
        }
        let more = n as usize - self.spare;
        self.chunks.make_room(self.alloc, self.counts.len() + more)?;
        self.counts.reserve(more)?;
        add_rows(&mut self.counts, more);
        self.spare += more;
        Ok(())
    }

    // Hands out the free rows that were passed by again, where there are many.
    fn begin_again(&mut self)
        ensures { self.new ≡ self.old }
    {
        if self.free.behind > self.counts.len() / LOOSE {
            self.free.begin_again();
        }
    }

    /// A row that wasn't live, all zero and counted once: the lowest one behind that which was taken
    /// last, and the lowest of all where none is left. As long as no more are taken than the last
    /// call of `reserve` asked for, all calls since then pass over the counts of the rows twice at
    /// most, and each takes a bounded number of steps besides.
    pub fn take(&mut self) -> RowId
        requires { 0 < self.old.spare }
        ensures fresh { count_of self.old.rows result.0 ≡ 0 }
        ensures taken { self.new ≡ taken self.old result.0 }
    {
        self.take_words(&[0; 8])
    }

    /// A row that wasn't live, with these eight words and counted once: the one that `take` would
    /// hand out, in as many steps, where the calls of both count together. What the row had before
    /// isn't cleared first.
    pub fn take_words(&mut self, words: &[u64]) -> RowId
        requires some { 0 < self.old.spare }
        requires eight { length words.now ≡ 8 }
        ensures fresh { count_of self.old.rows result.0 ≡ 0 }
        ensures taken { self.new ≡ taken_with self.old result.0 words.now }
    {
        let id = self.free.next(&self.counts, self.spare);
        self.chunks.write(id, words);
        self.counts[id as usize] = 1;
        self.spare -= 1;
        self.live += 1;
        RowId(id)
    }

    /// Counts a row once more, in a bounded number of steps.
    pub fn share(&mut self, row: RowId)
        requires live { IsLive self.old.rows row.0 }
        requires room { count_of self.old.rows row.0 < 2 ^ 32 - 1 }
        ensures rows { self.new.rows ≡ with_count self.old.rows row.0 (count_of self.old.rows row.0 + 1) }
        ensures spare { self.new.spare ≡ self.old.spare }
    {
        self.counts[row.0 as usize] += 1;
    }

    /// Counts a row once less, in a bounded number of steps. A row that is counted no more isn't
    /// live, and can be taken.
    pub fn give(&mut self, row: RowId)
        requires { IsLive self.old.rows row.0 }
        ensures { self.new ≡ given self.old row.0 }
    {
        self.counts[row.0 as usize] -= 1;
        if self.counts[row.0 as usize] == 0 {
            self.free.give(row.0);
            self.spare += 1;
            self.live -= 1;
        }
    }

    /// The eight words of a row, in a bounded number of steps.
    pub fn words(&self, row: RowId) -> &[u64]
        requires { IsLive self.now.rows row.0 }
        ensures value { result.now ≡ words_of self.now.rows row.0 }
        ensures eight { length result.now ≡ 8 }
    {
        self.chunks.words(row.0)
    }

    /// The eight words of a row that is counted once, to be written, in a bounded number of steps.
    pub fn words_mut(&mut self, row: RowId) -> &mut [u64]
        requires { count_of self.old.rows row.0 ≡ 1 }
        ensures* writes_back { sem 𝓛 (lends_words self.entry row.0 result) }
        ensures value { result.now ≡ words_of self.old.rows row.0 }
        ensures eight { length result.now ≡ 8 }
    {
        self.chunks.words_mut(row.0)
    }

    /// Whether a row is live, in a bounded number of steps.
    pub fn is_live(&self, row: RowId) -> bool
        ensures { IsTrue result ↔ IsLive self.now.rows row.0 }
    {
        (row.0 as usize) < self.counts.len() && self.counts[row.0 as usize] > 0
    }

    /// How often a row is counted, in a bounded number of steps.
    pub fn count(&self, row: RowId) -> u32
        requires { IsLive self.now.rows row.0 }
        ensures { result ≡ count_of self.now.rows row.0 }
    {
        self.counts[row.0 as usize]
    }

    /// How many rows are live. What the rows are stands here too, for each caller: their ids
    /// ascend, each is counted at least once, and each has eight words.
    pub fn live(&self) -> usize
        ensures value { result ≡ length self.now.rows }
        ensures rows { AreRows 0 self.now.rows }
    {
        self.live
    }

    /// How many more rows can be taken.
    pub fn spare(&self) -> usize
        ensures { result ≡ self.now.spare }
    {
        self.spare
    }
}

// So many more rows, which aren't counted.
fn add_rows(counts: &mut Vec<u32>, more: usize)
    requires { vec_len counts.old + more ≤ vec_capacity counts.old }
    ensures { counts.new.items ≡ counts.old.items ++ replicate more 0 }
{
    'rows: for _ in 0..more {
        counts.push_reserved(0);
    }
}
