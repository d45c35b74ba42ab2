//! A chunk of 256 rows of eight words, which never move. What holds a pointer is in `raw`.

ghost use Rattle.std.specs.Prelude.{◌≡◌, ◌<◌, length, replicate, IfOk};
ghost use Rattle.std.specs.Borrow.{sem};

use crate::raw::{CHUNK_WORDS, Owned, Start, allocate, deallocate};
use sp_ids::Memory;
use std::alloc::Global;
use std::marker::Model;

/// How many rows a chunk has.
pub(crate) const ROWS: usize = 256;

/// How many words a row has.
pub(crate) const WORDS: usize = 8;

/// Rows side by side. Contracts see the list of all their words.
pub struct Chunk {
    start: Start,
    owned: Owned,
    alloc: Global,
}

impl Model for Chunk {
    ghost use Rattle.std.specs.Prelude.{◌≡◌, ℕ, List, length};

    ghost Value = { List ℕ };

    ghost view = { λ c. c.owned.words };

    ghost invariant = { λ c. (c.owned.at ≡ c.start.ptr) × (length c.owned.words ≡ 2048) };
}

impl Drop for Chunk {
    fn drop(self) {
        let Chunk {
            start,
            owned,
            alloc,
        } = self;
        deallocate(&alloc, start, owned);
    }
}

impl Chunk {
    ghost use Rattle.sp_rows.specs.ChunkLends.{lends_row};
    ghost use Rattle.sp_rows.specs.Rows.{row_of};

    /// A chunk whose words are all zero.
    pub(crate) fn new(alloc: Global) -> Result<Chunk, Memory>
        ensures { IfOk result (λ chunk. chunk ≡ replicate 2048 0) }
    {
        let (start, mut owned) = allocate(&alloc)?;
        'words: for index in 0..CHUNK_WORDS {
            owned.push(start, index, 0);
        }
        Ok(Chunk {
            start,
            owned,
            alloc,
        })
    }

    /// The words of a row.
    pub(crate) fn words(&self, row: usize) -> &[u64]
        requires { row < 256 }
        ensures value { result.now ≡ row_of self.now row }
        ensures eight { length result.now ≡ 8 }
    {
        self.owned.eight(self.start, WORDS * row)
    }

    /// The same, to be written.
    pub(crate) fn words_mut(&mut self, row: usize) -> &mut [u64]
        requires { row < 256 }
        ensures* writes_back { sem 𝓛 (lends_row self.entry row result) }
        ensures value { result.now ≡ row_of self.old row }
        ensures eight { length result.now ≡ 8 }
    {
        self.owned.eight_mut(self.start, WORDS * row)
    }
}
